// The sender and the receiver that a received message names.
ghost use Rattle.std.specs.Prelude.{◌≡◌};
ghost use Rattle.answer.specs.Ask.{first_no};
ghost use Rattle.message.specs.Keys.{key_at};
ghost use Rattle.message.specs.Reading.{is_sealed};
ghost use Rattle.message.specs.Senders.{sender_questions};

use crate::keys;
use crate::reading::is_sealed;

// Question 14, with the sender's key; a key store that ends before has less of it, or nothing.
fn is_sealed_by(keys: &[u8], sender: u8, bytes: &[u8]) -> bool
    ensures { result ≡ is_sealed (key_at keys.now sender) bytes.now }
{
    let at = keys::LENGTH * usize::from(sender);
    let key = lists::front(lists::behind(keys, at), keys::LENGTH);
    is_sealed(key, bytes)
}

// Questions 12, 13 and 14, at the end with an id, to which the first `known` of the other ends may send: 0, or the
// number of the first whose answer is no.
pub fn sender_question(known: u8, id: u8, keys: &[u8], bytes: &[u8], sender: u8, receiver: u8) -> u8
    ensures { result
        ≡ first_no (sender_questions known id keys.now bytes.now sender receiver) }
{
    if known <= sender {
        return answer::UNKNOWN_ID;
    }
    if receiver != id {
        return answer::WRONG_RECEIVER;
    }
    if !is_sealed_by(keys, sender, bytes) {
        return answer::WRONG_TAG;
    }
    answer::DONE
}
