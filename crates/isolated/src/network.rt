// The network's bytes, as `links` writes them, read as the check takes them.
ghost use Rattle.std.specs.Prelude.{◌≤◌};

use checker::limits::{LINES, LINKS};
use checker::{Line, PortLink};
use lists::byte_at;

const LINK: u8 = 0x31;

const CLIENT: u8 = 0x32;

const LINK_SIZE: usize = 6;

const CLIENT_SIZE: usize = 8;

// Links and lines of traffic: the first `linked` and `lines` are in use.
#[derive(Clone, Copy)]
pub(crate) struct Network {
    links: [PortLink; LINKS],
    linked: usize,
    traffic: [Line; LINES],
    lines: usize,
    ghost fits: { (linked ≤ 256) × (lines ≤ 64) },
}

impl Network {
    fn empty() -> Network {
        let link = PortLink {
            switch: 0,
            port: 0,
            far: 0,
            owner: 0,
        };
        let line = Line {
            client: 0,
            prefix: 0,
            length: 0,
            entry: 0,
        };
        Network {
            links: [link; LINKS],
            linked: 0,
            traffic: [line; LINES],
            lines: 0,
        }
    }

    pub(crate) fn links(&self) -> &[PortLink] {
        &self.links[..self.linked]
    }

    pub(crate) fn traffic(&self) -> &[Line] {
        &self.traffic[..self.lines]
    }

    // One link more, where there is room.
    fn push_link(&mut self, link: PortLink) {
        if self.linked < LINKS {
            self.links[self.linked] = link;
            self.linked += 1;
        }
    }

    // One line of traffic more, where there is room.
    fn push_line(&mut self, line: Line) {
        if self.lines < LINES {
            self.traffic[self.lines] = line;
            self.lines += 1;
        }
    }
}

fn link_in(b: &[u8]) -> PortLink {
    PortLink {
        switch: byte_at(b, 1) as u32,
        port: lists::u16_of(byte_at(b, 2), byte_at(b, 3)) as u32,
        far: byte_at(b, 4) as u32,
        owner: byte_at(b, 5) as u32,
    }
}

fn line_in(b: &[u8]) -> Line {
    Line {
        client: byte_at(b, 1) as u32,
        prefix: lists::u32_of(byte_at(b, 2), byte_at(b, 3), byte_at(b, 4), byte_at(b, 5)),
        length: byte_at(b, 6) as u32,
        entry: byte_at(b, 7) as u32,
    }
}

// The network of all records before the first that is neither a link nor a line of traffic.
pub(crate) fn read(bytes: &[u8]) -> Network {
    let mut network = Network::empty();
    let mut rest = bytes;
    while !rest.is_empty() {
        let size = match byte_at(rest, 0) {
            LINK => {
                network.push_link(link_in(rest));
                LINK_SIZE
            }
            CLIENT => {
                network.push_line(line_in(rest));
                CLIENT_SIZE
            }
            _ => return network,
        };
        rest = lists::behind(rest, size);
    }
    network
}
