//! How numbers, addresses and names are written.
ghost use Rattle.std.specs.Prelude.{true, ◌≡◌, ◌≤◌, ◌<◌, ◌^◌, ◌+◌, ◌*◌, ◌==◌, length, slice_index, position, IfSome};
ghost use Rattle.std.specs.List.{list_all};
ghost use Rattle.and_script.specs.Words as words;

use and_events::Node;
use and_policy::Prefix;

/// Where the byte first stands in the text.
pub(crate) fn first_at(text: &[u8], byte: u8) -> Option<usize>
    ensures { result ≡ words.first_at byte text.now }
{
    text.iter().position(|x| *x == byte)
}

/// Whether all bytes are decimal digits.
fn are_digits(text: &[u8]) -> bool
    ensures { result ≡ list_all words.is_digit text.now }
{
    text.iter().all(|x| 48 <= *x && *x <= 57)
}

fn starts_well(text: &[u8]) -> bool
    ensures { result ≡ words.starts_well text.now }
{
    if text.len() < 2 {
        0 < text.len()
    } else {
        text[0] != 48
    }
}

/// Whether the text is decimal digits without a leading zero, at most so many.
fn is_decimal(text: &[u8], most: usize) -> bool
    ensures { result ≡ words.is_decimal most text.now }
{
    text.len() <= most && starts_well(text) && are_digits(text)
}

/// The number that decimal digits write.
fn digits_value(text: &[u8]) -> u64
    requires digits { list_all words.is_digit text.now ≡ true }
    requires few { length text.now ≤ 9 }
    ensures { result ≡ words.digits_value text.now }
{
    let mut value = 0u64;
    for x in text {
        value = 10 * value + (*x - 48) as u64;
    }
    value
}

/// The number that the text writes in decimal, of so many digits at most and up to the limit.
pub(crate) fn decimal(text: &[u8], most: usize, limit: u64) -> Option<u64>
    requires { most ≤ 9 }
    ensures value { result ≡ words.decimal most limit text.now }
    ensures small { IfSome result (λ v. v ≤ limit) }
{
    if !is_decimal(text, most) {
        return None;
    }
    let value = digits_value(text);
    if value <= limit { Some(value) } else { None }
}

/// Where the next number of an address ends, and the address with that number.
fn next_octet(text: &[u8], high: u64) -> Option<(usize, u64)>
    requires { high < 2 ^ 24 }
    ensures value { result ≡ words.next_octet high text.now }
    ensures within { IfSome result (λ next. next.0 < length text.now) }
    ensures small { IfSome result (λ next. next.1 < 256 * high + 256) }
{
    let end = first_at(text, b'.')?;
    let octet = decimal(&text[..end], 3, 255)?;
    Some((end, 256 * high + octet))
}

/// An IPv4 address: four numbers from 0 to 255 with `.` between.
pub(crate) fn ip_of(text: &[u8]) -> Option<u32>
    ensures { result ≡ words.ip_of text.now }
{
    let (first_end, first) = next_octet(text, 0)?;
    let text = &text[first_end + 1..];
    let (second_end, second) = next_octet(text, first)?;
    let text = &text[second_end + 1..];
    let (third_end, third) = next_octet(text, second)?;
    let last = decimal(&text[third_end + 1..], 3, 255)?;
    Some((256 * third + last) as u32)
}

fn hex_digit(x: u8) -> Option<u64>
    ensures value { result ≡ words.hex_digit x }
    ensures small { IfSome result (λ v. v < 16) }
{
    if 48 <= x && x <= 57 {
        Some((x - 48) as u64)
    } else if 97 <= x && x <= 102 {
        Some((x - 87) as u64)
    } else if 65 <= x && x <= 70 {
        Some((x - 55) as u64)
    } else {
        None
    }
}

fn hex_pair(text: &[u8], at: usize) -> Option<u64>
    requires { at + 1 < length text.now }
    ensures value { result ≡ words.hex_pair at text.now }
    ensures small { IfSome result (λ v. v < 256) }
{
    let high = hex_digit(text[at])?;
    let low = hex_digit(text[at + 1])?;
    Some(16 * high + low)
}

fn hex_four(text: &[u8], at: usize) -> Option<u64>
    requires { at + 4 < length text.now }
    ensures value { result ≡ words.hex_four at text.now }
    ensures small { IfSome result (λ v. v < 65536) }
{
    let high = hex_pair(text, at)?;
    let low = hex_pair(text, at + 3)?;
    Some(256 * high + low)
}

fn has_colons(text: &[u8]) -> bool
    requires { 14 < length text.now }
    ensures { result ≡ words.has_colons text.now }
{
    text[2] == 58 && text[5] == 58 && text[8] == 58 && text[11] == 58 && text[14] == 58
}

/// An Ethernet address: six pairs of hexadecimal digits with `:` between.
pub(crate) fn mac_of(text: &[u8]) -> Option<u64>
    ensures { result ≡ words.mac_of text.now }
{
    if text.len() != 17 || !has_colons(text) {
        return None;
    }
    let first = hex_four(text, 0)?;
    let second = hex_four(text, 6)?;
    let third = hex_four(text, 12)?;
    Some(65536 * (65536 * first + second) + third)
}

/// An address prefix: an address, `/`, and a length of 0 to 32. Address bits past the length are taken as 0.
pub(crate) fn prefix_of(text: &[u8]) -> Option<Prefix>
    ensures { result ≡ words.prefix_of text.now }
{
    let end = first_at(text, b'/')?;
    let address = ip_of(&text[..end])?;
    let length = decimal(&text[end + 1..], 2, 32)?;
    Some(masked(address, length as u8))
}

fn masked(address: u32, length: u8) -> Prefix
    requires { length ≤ 32 }
    ensures { result ≡ words.masked address length }
{
    let unit = 1u64 << (32 - length);
    Prefix {
        address: (address as u64 / unit * unit) as u32,
        length,
    }
}

/// Whether the text is a VM's name: 1 to 32 ASCII letters, digits, `-`, `_` or `.`.
pub(crate) fn is_name(text: &[u8]) -> bool
    ensures { result ≡ words.is_name text.now }
{
    0 < text.len() && text.len() <= 32 && are_name_bytes(text)
}

fn are_name_bytes(text: &[u8]) -> bool
    ensures { result ≡ list_all words.is_name_byte text.now }
{
    text.iter().all(|x| {
        (48 <= *x && *x <= 57)
            || (65 <= *x && *x <= 90)
            || (97 <= *x && *x <= 122)
            || *x == 45
            || *x == 95
            || *x == 46
    })
}

/// A node: `h` or `g`, and a number of at most nine digits.
pub(crate) fn node_of(text: &[u8]) -> Option<Node>
    ensures { result ≡ words.node_of text.now }
{
    if text.is_empty() {
        return None;
    }
    let number = decimal(&text[1..], 9, 999999999)? as u32;
    if text[0] == 104 {
        Some(Node::Host(number))
    } else if text[0] == 103 {
        Some(Node::Gate(number))
    } else {
        None
    }
}
