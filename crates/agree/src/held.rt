// Bytes of a table or a log: so many are held, and of these so many are lent.
ghost use Rattle.std.specs.Prelude.{◌≤◌};

use std::mem;

#[derive(Clone, Copy)]
pub(crate) struct Held<const N: usize> {
    bytes: [u8; N],
    held: usize,
    lent: usize,
    ghost held_within: { held ≤ N },
    ghost lent_within: { lent ≤ held },
}

impl<const N: usize> Held<N> {
    pub(crate) fn new() -> Held<N> {
        Held {
            bytes: [0; N],
            held: 0,
            lent: 0,
        }
    }

    pub(crate) fn held(&self) -> &[u8] {
        &self.bytes[..self.held]
    }

    pub(crate) fn held_mut(&mut self) -> &mut [u8] {
        let held = self.held;
        let bytes = &mut self.bytes;
        &mut bytes[..held]
    }

    pub(crate) fn lent(&self) -> &[u8] {
        &self.bytes[..self.lent]
    }

    pub(crate) fn lent_mut(&mut self) -> &mut [u8] {
        let lent = self.lent;
        let bytes = &mut self.bytes;
        &mut bytes[..lent]
    }

    // So many are held from here on, as far as there is room, and all of them lent. Whether there is room.
    pub(crate) fn hold(&mut self, length: usize) -> bool {
        self.held = length.min(N);
        self.lent = self.held;
        self.held == length
    }

    // The same, filled.
    pub(crate) fn fill(&mut self, length: usize, first: u8) -> bool {
        let fits = self.hold(length);
        count_up(self.held_mut(), first);
        fits
    }

    // So many are lent from here on, as far as they are held. Whether they are.
    pub(crate) fn lend(&mut self, length: usize) -> bool {
        self.lent = length.min(self.held);
        self.lent == length
    }
}

// A byte is put in a place. None if there is no such place, else the byte that stood there.
pub(crate) fn put(bytes: &mut [u8], place: usize, byte: u8) -> Option<u8> {
    let at = bytes.get_mut(place)?;
    Some(mem::replace(at, byte))
}

// Byte j is first + j, from 256 on anew.
pub(crate) fn count_up(bytes: &mut [u8], first: u8) {
    let mut next = first;
    for byte in bytes {
        *byte = next;
        next = next.wrapping_add(1);
    }
}
