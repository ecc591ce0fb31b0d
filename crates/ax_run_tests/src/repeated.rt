//! Long octets, told by what they repeat, and blocks of many records.

use std::alloc::Global;
use std::process::Abort;

/// Octets: a front, so many times a piece, and an end.
#[derive(Clone, Copy)]
pub(crate) struct Repeated<'o> {
    pub(crate) front: &'o [u8],
    pub(crate) times: usize,
    pub(crate) piece: &'o [u8],
    pub(crate) end: &'o [u8],
}

impl Repeated<'_> {
    /// The octets.
    pub(crate) fn made(&self, rt: &impl Abort, alloc: Global) -> Vec<u8> {
        let mut made = self.front.to_vec(alloc).expect(rt, "memory");
        for _ in 0..self.times {
            made.extend_from_slice(self.piece).expect(rt, "memory");
        }
        made.extend_from_slice(self.end).expect(rt, "memory");
        made
    }
}

/// These octets, and after them a repetitive item by FX of one octet an occurrence, each of the number 0: so many, and the last one.
pub(crate) fn by_fx(rt: &impl Abort, alloc: Global, front: &[u8], before_last: usize) -> Vec<u8> {
    let octets = Repeated {
        front,
        times: before_last,
        piece: &[0x01],
        end: &[0x00],
    };
    octets.made(rt, alloc)
}

/// The largest block of G1, whose records have one item of one octet, and these octets after it.
pub(crate) fn largest(rt: &impl Abort, alloc: Global, after: &[u8]) -> Vec<u8> {
    let octets = Repeated {
        front: &[0xC9, 0xFF, 0xFF],
        times: 32_766,
        piece: &[0x80, 0x01],
        end: after,
    };
    octets.made(rt, alloc)
}

/// A block of so many records of G2, with its LEN, and these octets after it.
pub(crate) fn moved(
    rt: &impl Abort,
    alloc: Global,
    len: [u8; 2],
    records: usize,
    after: &[u8],
) -> Vec<u8> {
    let [high, low] = len;
    let octets = Repeated {
        front: &[0xC9, high, low],
        times: records,
        piece: &[0x01, 0x80, 0x01],
        end: after,
    };
    octets.made(rt, alloc)
}
