// The world before a script: all ends as their setups leave them, and all places empty. And what a record takes out of a
// world.
ghost use Rattle.std.specs.Prelude.{◌≡◌, get_or};
ghost use Rattle.answer.specs.Limits.{most_controllers, switch_count};
ghost use Rattle.switch.specs.States as switches;
ghost use Rattle.controller.specs.States as controllers;
ghost use Rattle.rehearsal.specs.Worlds.{each, empty_place, world_of};

use crate::{Place, World, limits};
use controller::Controller;
use playbook::Playbook;
use switch::Switch;

fn switches_of(n: u8) -> [Switch; limits::SWITCHES]
    ensures { result ≡ each (λ s. (switches.setup_of s n).state) switch_count }
{
    let mut all = [switch::setup(0, n).state; limits::SWITCHES];
    for (id, place) in all.iter_mut().enumerate() {
        *place = switch::setup(id as u8, n).state;
    }
    all
}

fn controllers_of(n: u8, p: Playbook) -> [Controller; limits::CONTROLLERS]
    ensures { result ≡ each (λ c. (controllers.setup_of c n p).state) most_controllers }
{
    let mut all = [controller::setup(0, n, p).state; limits::CONTROLLERS];
    for (id, place) in all.iter_mut().enumerate() {
        *place = controller::setup(id as u8, n, p).state;
    }
    all
}

impl World {
    // The world of n controllers before a script.
    pub(crate) fn new(n: u8, p: Playbook) -> Self
        ensures { result ≡ world_of n p }
    {
        World {
            n,
            switches: switches_of(n),
            controllers: controllers_of(n, p),
            places: [Place::empty(); limits::PLACES],
        }
    }

    // The place with a number, or an empty one where there is none.
    pub(crate) fn place(&self, number: u8) -> Place
        ensures { result ≡ get_or self.now.places number empty_place }
    {
        match self.places.get(number as usize) {
            Some(place) => *place,
            None => Place::empty(),
        }
    }
}
