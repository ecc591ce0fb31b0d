//! Numbers at any bit, and outputs over lent buffers.
ghost use Rattle.std.specs.Prelude.{◌≡◌, ◌≤◌, [], ◌∷◌, ◌++◌, length, take};
ghost use Rattle.ax_bits.specs.Bits.{word, bits};

use crate::checks::{same_number, same_octets};
use ax_bits::{Out, bits_at, put_bits, signed_of};
use std::process::Abort;

// What a lender knows once its output has ended.
fn lend(buffer: &mut [u8])
    requires { length buffer.old ≡ 4 }
    ensures { take 16 (bits buffer.new) ≡ bits (3 ∷ 2 ∷ []) }
{
    let mut out = Out::over(buffer);
    out.push_octet(1);
    out.push_octet(2);
    out.replace(0, 3);
}

const OCTETS: [u8; 4] = [0x12, 0x34, 0x56, 0x78];

// The first bit and the width of a number in those octets, and the number.
const NUMBERS: [(u32, u32, u128); 6] = [
    (0, 8, 0x12),
    (4, 8, 0x23),
    (0, 32, 0x1234_5678),
    (3, 1, 1),
    (4, 13, 0x468),
    (31, 1, 0),
];

fn has_number(rt: &impl Abort, at: u32, width: u32, number: u128) {
    assert!(rt; 1 <= width && width <= 32 && at <= 32 - width);
    assert!(rt;
        bits_at(&OCTETS, at, width) == number,
        "at {at}, {width} bits"
    );
}

#[test]
fn numbers_at_any_bit(rt: HostRuntime) {
    for &(at, width, number) in &NUMBERS {
        has_number(&rt, at, width, number);
    }
}

#[test]
fn the_widest_number(rt: HostRuntime) {
    assert!(rt; bits_at(&[0xff; 17], 5, 128) == u128::MAX);
}

#[test]
fn puts_numbers_between_other_bits(rt: HostRuntime) {
    let mut octets = [0xff; 3];
    put_bits(&mut octets, 4, 13, 0);
    same_octets(&rt, &octets, &[0xf0, 0x00, 0x7f], "13 bits");
    put_bits(&mut octets, 6, 4, 0b1001);
    same_octets(&rt, &octets, &[0xf2, 0x40, 0x7f], "4 bits");
}

#[test]
fn puts_the_widest_number(rt: HostRuntime) {
    let mut wide = [0; 17];
    put_bits(&mut wide, 7, 128, u128::MAX);
    same_octets(&rt, &wide[..2], &[0x01, 0xff], "the first octets");
    same_octets(&rt, &wide[15..], &[0xff, 0xfe], "the last octets");
}

#[test]
fn two_complement_at_both_ends(rt: HostRuntime) {
    same_number(&rt, signed_of(0, 1), 0, "0 in a bit");
    same_number(&rt, signed_of(1, 1), -1, "1 in a bit");
    same_number(&rt, signed_of(0x7f, 8), 127, "7f in an octet");
    same_number(&rt, signed_of(0x80, 8), -128, "80 in an octet");
    same_number(&rt, signed_of(0xff, 8), -1, "ff in an octet");
}

#[test]
fn two_complement_of_the_widest_numbers(rt: HostRuntime) {
    let largest = signed_of(u128::MAX >> 1, 128);
    let least = signed_of(1 << 127, 128);
    same_number(&rt, largest, i128::MAX, "the largest");
    same_number(&rt, least, i128::MIN, "the least");
}

#[test]
fn outputs_bits_and_octets(rt: HostRuntime) {
    let mut buffer = [0; 8];
    lend(&mut buffer[..4]);
    same_octets(&rt, &buffer[..2], &[3, 2], "the buffer");
    let mut out = Out::over(&mut buffer);
    out.push_bits(0b101, 3);
    out.push_octets(&[0xff, 0x00]);
    same_number(&rt, i128::from(out.room()), 45, "the room");
    out.push_bits(0b10001, 5);
    out.push_octets(&[0xab, 0xcd]);
    out.replace(1, 0x77);
    same_number(&rt, i128::from(out.room()), 24, "the room");
    same_octets(
        &rt,
        out.octets(),
        &[0xbf, 0x77, 0x11, 0xab, 0xcd],
        "the output",
    );
}
