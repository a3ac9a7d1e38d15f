//! The Huffman code of strings (RFC 7541, section 5.2). A code of at most eight bits is looked up by the byte that begins with
//! it; a longer one is walked bit by bit, with the number of the first code of each length.

ghost use Rattle.std.specs.Prelude.{◌≡◌, ◌⊎◌, ◌<◌, ◌≤◌, ◌+◌, ◌-◌, ◌^◌, ◌++◌, List, [], length, take, drop, slice_index, if◌then◌else◌, Some, None, IfOk, IfErr, OnOk, All, MatchOption};
ghost use Rattle.hpack_tables.specs.declared.fault.HpackFault.TheVariants.{OutOfMemory as NoMemory, BadHuffman};
ghost use Rattle.hpack_tables.specs.Huffman.{Code, IsHuffman, bits_of, is_padding, number_bits, one_length, text_behind, text_of};
ghost use Rattle.hpack_tables.specs.HuffmanWalk.{IsFront, IsWalk, ReadsTo, StepsTo, bits_left, later, taken};
ghost use Rattle.hpack_tables.specs.HuffmanSpelling.{IsPadded, IsRest, IsSetBut, IsShort, bits_in};

use crate::fault::HpackFault;
use crate::short_codes::short_code;
use proto_wire::{Bytes, OutOfMemory};
use std::alloc::Global;

/// How many symbols have a code of one bit, of two, and so on (RFC 7541, appendix B).
const COUNTS: [u32; 30] = [
    0, 0, 0, 0, 10, 26, 32, 6, 0, 5, 3, 2, 6, 2, 3, 0, 0, 0, 3, 8, 13, 26, 29, 12, 4, 15, 19, 29,
    0, 4,
];

/// The symbols in the order of their codes, those of the shortest codes first. 256 is the end symbol.
const SYMBOLS: [u16; 257] = [
    // 5 bits
    48, 49, 50, 97, 99, 101, 105, 111, 115, 116,
    // 6 bits
    32, 37, 45, 46, 47, 51, 52, 53, 54, 55, 56, 57, 61, 65, 95, 98, 100, 102, 103, 104, 108, 109,
    110, 112, 114, 117,
    // 7 bits
    58, 66, 67, 68, 69, 70, 71, 72, 73, 74, 75, 76, 77, 78, 79, 80, 81, 82, 83, 84, 85, 86, 87, 89,
    106, 107, 113, 118, 119, 120, 121, 122,
    // 8 bits
    38, 42, 44, 59, 88, 90,
    // 10 bits
    33, 34, 40, 41, 63,
    // 11 bits
    39, 43, 124,
    // 12 bits
    35, 62,
    // 13 bits
    0, 36, 64, 91, 93, 126,
    // 14 bits
    94, 125,
    // 15 bits
    60, 96, 123,
    // 19 bits
    92, 195, 208,
    // 20 bits
    128, 130, 131, 162, 184, 194, 224, 226,
    // 21 bits
    153, 161, 167, 172, 176, 177, 179, 209, 216, 217, 227, 229, 230,
    // 22 bits
    129, 132, 133, 134, 136, 146, 154, 156, 160, 163, 164, 169, 170, 173, 178, 181, 185, 186, 187,
    189, 190, 196, 198, 228, 232, 233,
    // 23 bits
    1, 135, 137, 138, 139, 140, 141, 143, 147, 149, 150, 151, 152, 155, 157, 158, 165, 166, 168,
    174, 175, 180, 182, 183, 188, 191, 197, 231, 239,
    // 24 bits
    9, 142, 144, 145, 148, 159, 171, 206, 215, 225, 236, 237,
    // 25 bits
    199, 207, 234, 235,
    // 26 bits
    192, 193, 200, 201, 202, 205, 210, 213, 218, 219, 238, 240, 242, 243, 255,
    // 27 bits
    203, 204, 211, 212, 214, 221, 222, 223, 241, 244, 245, 246, 247, 248, 250, 251, 252, 253, 254,
    // 28 bits
    2, 3, 4, 5, 6, 7, 8, 11, 12, 14, 15, 16, 17, 18, 19, 20, 21, 23, 24, 25, 26, 27, 28, 29, 30,
    31, 127, 220, 249,
    // 30 bits
    10, 13, 22, 256,
];

/// The end symbol.
const END: u16 = 256;

/// The bits of a byte.
const BYTE: u32 = 8;

/// The bits of the longest code.
const LONGEST: u32 = 30;

/// A padding has fewer bits than this.
const PADDING: u32 = 8;

/// Where a walk stands within a code: the bits that it took, as a number, and how many; as many bits of the first of the
/// longer codes, as a number; and the place of the symbol of that code.
#[derive(Clone, Copy)]
struct Walk {
    number: u32,
    len: u32,
    first: u32,
    at: usize,
}

/// Before the first bit of a code.
const BEGIN: Walk = Walk {
    number: 0,
    len: 0,
    first: 0,
    at: 0,
};

/// After seven ones, with which every code of more than eight bits begins.
const SEVEN_ONES: Walk = Walk {
    number: 127,
    len: 7,
    first: 124,
    at: 68,
};

/// What a bit leads to.
enum Step {
    /// The code goes on.
    More(Walk),
    /// It is the code of this symbol.
    Symbol(u16),
}

/// A bit as a number.
fn number_of(bit: bool) -> u32
    ensures { result ≡ (if bit then 1 else 0) }
{
    u32::from(bit)
}

/// How many codes have `len + 1` bits.
fn count_at(len: u32) -> u32
    requires { len < 30 }
    ensures { result ≡ slice_index COUNTS len }
{
    COUNTS[len as usize]
}

/// The symbol at a place in the order of the codes.
fn symbol_at(at: usize) -> u16
    requires { at < 257 }
    ensures { result ≡ slice_index SYMBOLS at }
{
    SYMBOLS[at]
}

/// The step of a walk by one more bit.
fn next_bit(walk: Walk, bit: bool) -> Step
    requires { IsWalk walk }
    ensures { StepsTo walk bit result }
{
    let number = 2 * walk.number + number_of(bit);
    let first = 2 * walk.first;
    let count = count_at(walk.len);
    if number - first < count {
        return Step::Symbol(symbol_at(walk.at + (number - first) as usize));
    }
    Step::More(Walk {
        number,
        len: walk.len + 1,
        first: first + count,
        at: walk.at + count as usize,
    })
}

/// Bits of a string that are not read yet: the lowest `len` bits of a number.
#[derive(Clone, Copy)]
struct Window {
    number: u64,
    len: u32,
}

/// No bits.
const EMPTY: Window = Window { number: 0, len: 0 };

/// Adds four bytes to a window, or one if fewer than four are left: the new window, and the bytes after them.
fn refilled(window: Window, bytes: &[u8]) -> (Window, &[u8])
    requires { window.len < 30 }
    ensures few { result.0.len < 62 }
    ensures bits { bits_left result.0 ++ bits_of result.1.now ≡ bits_left window ++ bits_of bytes.now }
    ensures less { 0 < length bytes.now → length result.1.now < length bytes.now }
{
    // The bits above the lowest `len` are no part of the window.
    let number = window.number % (1 << LONGEST);
    match bytes {
        [a, b, c, d, rest @ ..] => {
            let number = (number * 256 + u64::from(*a)) * 256 + u64::from(*b);
            let number = (number * 256 + u64::from(*c)) * 256 + u64::from(*d);
            (
                Window {
                    number,
                    len: window.len + 4 * BYTE,
                },
                rest,
            )
        }
        [byte, rest @ ..] => {
            let number = number * 256 + u64::from(*byte);
            (
                Window {
                    number,
                    len: window.len + BYTE,
                },
                rest,
            )
        }
        [] => (window, bytes),
    }
}

/// The code of more than eight bits at the front of a window: its symbol, and the bits after it.
fn walked_code(window: Window) -> (u16, Window)
    requires enough { 30 ≤ window.len }
    requires few { window.len < 62 }
    requires ones { bits_left window ≡ number_bits 7 127 ++ number_bits (window.len - 7) window.number }
    ensures front { IsFront (bits_left window) result.0 (bits_left result.1) }
    ensures less { result.1.len < window.len }
{
    let mut walk = SEVEN_ONES;
    let mut left = window.len - SEVEN_ONES.len;
    'bits: loop {
        left -= 1;
        match next_bit(walk, (window.number >> left) % 2 == 1) {
            Step::More(next) => walk = next,
            Step::Symbol(symbol) => {
                let rest = Window {
                    number: window.number,
                    len: left,
                };
                return (symbol, rest);
            }
        }
    }
}

/// The code at the front of a window: its symbol, and the bits after it. `None` if the window may have only a part of it.
fn next_code(window: Window) -> Option<(u16, Window)>
    requires { window.len < 62 }
    ensures { MatchOption result (window.len < 30) (λ x. IsFront (bits_left window) x.0 (bits_left x.1) × (x.1.len < window.len)) }
{
    if window.len < BYTE {
        return None;
    }
    if let Some((symbol, len)) = short_code(((window.number >> (window.len - BYTE)) % 256) as u8) {
        let rest = Window {
            number: window.number,
            len: window.len - u32::from(len),
        };
        return Some((u16::from(symbol), rest));
    }
    if window.len < LONGEST {
        return None;
    }
    Some(walked_code(window))
}

/// Reads the codes at the front of a window and appends their symbols. It gives what is left of the window, or `None` at the
/// end symbol.
fn read_codes(from: Window, text: &mut Vec<u8>) -> Result<Option<Window>, OutOfMemory>
    requires { from.len < 62 }
    ensures { IfOk result (λ next. ReadsTo (bits_left from) text.old.items text.new.items next) }
{
    let mut window = from;
    'codes: while let Some((symbol, rest)) = next_code(window) {
        if symbol == END {
            return Ok(None);
        }
        text.push(symbol as u8)?;
        window = rest;
    }
    Ok(Some(window))
}

/// Whether the bits of a window are a padding: fewer than eight, and all of them ones.
fn is_padded(window: Window) -> bool
    ensures { result ≡ is_padding (bits_left window) }
{
    window.len < PADDING && window.number % (1 << window.len) + 1 == 1 << window.len
}

/// Reads the last bits of a string and appends the symbols whose codes they have. Whether the bits after these are a padding.
fn read_last(window: Window, text: &mut Vec<u8>) -> Result<bool, OutOfMemory>
    requires { window.len < 30 }
    ensures { IfOk result (λ whole. later text.old.items (text_behind [] (bits_left window)) ≡ (if whole then Some text.new.items else None)) }
{
    if is_padded(window) {
        return Ok(true);
    }
    let mut walk = BEGIN;
    let mut left = window.len;
    'bits: while left > 0 {
        left -= 1;
        match next_bit(walk, (window.number >> left) % 2 == 1) {
            Step::More(next) => walk = next,
            Step::Symbol(symbol) => {
                if symbol == END {
                    return Ok(false);
                }
                text.push(symbol as u8)?;
                walk = BEGIN;
            }
        }
    }
    Ok(is_padded(walked(walk)))
}

/// The bits that a walk took, as a window.
fn walked(walk: Walk) -> Window
    ensures { bits_left result ≡ taken walk }
{
    Window {
        number: u64::from(walk.number),
        len: walk.len,
    }
}

/// The text of a coded string, or `None` if the string is malformed.
pub(crate) fn text_in(alloc: Global, bytes: &[u8]) -> Result<Option<Bytes>, OutOfMemory>
    ensures { IfOk result (λ text. text ≡ text_of bytes.now) }
{
    // The shortest code has five bits.
    let most = bytes.len() / 5 * 8 + bytes.len() % 5 * 8 / 5;
    let mut text = Vec::with_capacity(alloc, most)?;
    let mut window = EMPTY;
    let mut rest = bytes;
    'bytes: while !rest.is_empty() {
        let (more, behind) = refilled(window, rest);
        match read_codes(more, &mut text)? {
            Some(left) => window = left,
            None => return Ok(None),
        }
        rest = behind;
    }
    if read_last(window, &mut text)? {
        Ok(Some(Bytes::from_vec(text)))
    } else {
        Ok(None)
    }
}

/// The text of a coded string. A malformed string is refused with `BadHuffman` at 0.
pub fn huffman_decode(alloc: Global, bytes: &[u8]) -> Result<Bytes, HpackFault>
    ensures ok { IfOk result (λ text. text_of bytes.now ≡ Some text) }
    ensures err { IfErr result (λ e. (e ≡ NoMemory) ⊎ ((e ≡ BadHuffman 0) × (text_of bytes.now ≡ None))) }
{
    match text_in(alloc, bytes)? {
        Some(text) => Ok(text),
        None => Err(HpackFault::BadHuffman { at: 0 }),
    }
}

/// Some bits, as a number.
#[derive(Clone, Copy)]
struct Bits {
    number: u32,
    len: u32,
}

/// No bits.
const NO_BITS: Bits = Bits { number: 0, len: 0 };

/// So many symbols in the order of their codes, from a place on.
fn symbols_at(at: usize, count: usize) -> &'static [u16]
    requires { at + count ≤ 257 }
    ensures { result.now ≡ take count (drop at SYMBOLS) }
{
    &SYMBOLS[at..at + count]
}

/// Sets the codes of some symbols. The codes have `len` bits, and their numbers are `first` and those after it, in order.
fn set_codes(codes: &mut [Bits], len: u32, first: u32, symbols: &[u16])
    requires enough { length codes.old ≡ 257 }
    requires symbols { All (λ symbol. symbol < 257) symbols.now }
    requires fits { first + length symbols.now < 2 ^ 32 }
    ensures { (rest : List Code) → IsSetBut codes.old (one_length len first symbols.now ++ rest) → IsSetBut codes.new rest }
{
    let mut number = first;
    for symbol in symbols {
        codes[*symbol as usize] = Bits { number, len };
        number += 1;
    }
}

/// The code of each symbol.
fn codes_by_symbol() -> [Bits; 257]
    ensures { IsSetBut result [] }
{
    let mut codes = [NO_BITS; 257];
    let mut first = 0;
    let mut at = 0;
    for len in 0..30 {
        let count = count_at(len);
        first = 2 * first;
        set_codes(&mut codes, len + 1, first, symbols_at(at, count as usize));
        first += count;
        at += count as usize;
    }
    codes
}

/// Appends a code after bits that do not fill a byte. It gives the bits that do not fill a byte then.
fn push_code(out: &mut Vec<u8>, before: Bits, code: Bits) -> Result<Bits, OutOfMemory>
    requires before { IsRest before }
    requires code { IsShort code }
    ensures { IfOk result (λ rest. IsRest rest × (bits_of out.new.items ++ bits_in rest ≡ bits_of out.old.items ++ (bits_in before ++ bits_in code))) }
{
    let number = (u64::from(before.number) << code.len) + u64::from(code.number);
    let mut left = before.len + code.len;
    'bytes: while left >= BYTE {
        left -= BYTE;
        out.push(((number >> left) % 256) as u8)?;
    }
    Ok(Bits {
        number: (number % (1 << left)) as u32,
        len: left,
    })
}

/// Appends bits that do not fill a byte, padded with ones.
fn push_rest(out: &mut Vec<u8>, rest: Bits) -> Result<(), OutOfMemory>
    requires { IsRest rest }
    ensures { OnOk result (IsPadded (bits_of out.new.items) (bits_of out.old.items ++ bits_in rest)) }
{
    if rest.len > 0 {
        let ones = BYTE - rest.len;
        let number = (rest.number << ones) + ((1 << ones) - 1);
        out.push(number as u8)?;
    }
    Ok(())
}

/// The coded string that spells a text.
pub fn huffman_encode(alloc: Global, bytes: &[u8]) -> Result<Bytes, OutOfMemory>
    ensures { IfOk result (λ coded. IsHuffman coded bytes.now) }
{
    let codes = codes_by_symbol();
    let mut out = Vec::new(alloc);
    let mut rest = NO_BITS;
    for byte in bytes {
        rest = push_code(&mut out, rest, codes[*byte as usize])?;
    }
    push_rest(&mut out, rest)?;
    Ok(Bytes::from_vec(out))
}
