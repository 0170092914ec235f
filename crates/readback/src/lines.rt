// The lines of a Value Change Dump: what one says that stands at a place of a file, or how far one stands there. A line that is
// right is read four bytes at a time; only of another one is it asked, byte by byte, how far it stands.
ghost use Rattle.std.specs.Prelude.{◌≡◌, ◌+◌, ◌≤◌, length, IfOk, IfSome};
ghost use Rattle.vcd.specs.Form.{time_line, value_line};
ghost use Rattle.readback.specs.Shapes.{byte_at, left_out, IsTime, IsOther, Top, ByteRead, NumberRead, DigitRead, Reading, Word, FourBits, FourDigits, LastBit, Whole};

use crate::Deviation;

// ---- lines that are cut short: the number of the digits so far, or the first place that no line goes on to
// One byte more, where the line stands so far and goes on with the byte that is wanted.
fn with_byte(
    line: Result<u32, Deviation>,
    file: &[u8],
    place: usize,
    wanted: u8,
) -> Result<u32, Deviation>
    ensures { ByteRead (byte_at file.now place) wanted place line result }
{
    let number = line?;
    match file.get(place) {
        Some(byte) if *byte == wanted => Ok(number),
        _ => Err(Deviation { place }),
    }
}

// The number with one digit more, where it is one from low to high, other than `but`.
fn longer(front: u32, byte: u8, base: u32, low: u32, high: u32, but: Option<u32>) -> Option<u32>
    requires { (base ≤ 10) × (high ≤ 4096) × (front ≤ 4096) }
    ensures { NumberRead byte base low high (left_out but) front result }
{
    if byte < 48 {
        return None;
    }
    let digit = u32::from(byte - 48);
    if digit >= base {
        return None;
    }
    let number = front * base + digit;
    if number < low || number > high || but == Some(number) {
        return None;
    }
    Some(number)
}

// One digit more, where the line stands so far and goes on with one that makes such a number.
fn with_digit(
    line: Result<u32, Deviation>,
    file: &[u8],
    place: usize,
    base: u32,
    low: u32,
    high: u32,
    but: Option<u32>,
) -> Result<u32, Deviation>
    requires { (base ≤ 10) × (high ≤ 4096) × IfOk line (λ n. n ≤ 4096) }
    ensures { DigitRead (byte_at file.now place) base low high (left_out but) place line result }
{
    let front = line?;
    let Some(byte) = file.get(place) else {
        return Err(Deviation { place });
    };
    longer(front, *byte, base, low, high, but).ok_or(Deviation { place })
}

// How much of a time line stands, of slice low or a later one.
fn time_begun(file: &[u8], from: usize, low: u32) -> Result<u32, Deviation>
    requires { (from ≤ 100000) × (low ≤ 4096) }
    ensures { Reading time_line (IsTime low) file.now from 6 1 result }
{
    let mark = with_byte(Ok(0), file, from, b'#');
    let first = with_digit(mark, file, from + 1, 10, low / 1000, 4, None);
    let second = with_digit(first, file, from + 2, 10, low / 100, 40, None);
    let third = with_digit(second, file, from + 3, 10, low / 10, 409, None);
    let fourth = with_digit(third, file, from + 4, 10, low, 4096, None);
    with_byte(fourth, file, from + 5, b'\n')
}

// The greatest entry that is another.
fn top_other(before: u32) -> u32
    ensures { Top before result }
{
    if before == 16 { 15 } else { 16 }
}

// How much of a value line stands, of another entry than the one before.
fn value_begun(file: &[u8], from: usize, before: u32) -> Result<u32, Deviation>
    requires { from ≤ 100000 }
    ensures { Reading value_line (IsOther before) file.now from 9 1 result }
{
    let top = top_other(before);
    let mark = with_byte(Ok(0), file, from, b'b');
    let first = with_digit(mark, file, from + 1, 2, 0, top / 16, None);
    let second = with_digit(first, file, from + 2, 2, 0, top / 8, None);
    let third = with_digit(second, file, from + 3, 2, 0, top / 4, None);
    let fourth = with_digit(third, file, from + 4, 2, 0, top / 2, None);
    let fifth = with_digit(fourth, file, from + 5, 2, 0, top, Some(before));
    let blank = with_byte(fifth, file, from + 6, b' ');
    let name = with_byte(blank, file, from + 7, b'!');
    with_byte(name, file, from + 8, b'\n')
}

// ---- whole lines
// Four bytes as one number, which is one load.
fn word_at(file: &[u8], i: usize) -> u32
    requires { i + 4 ≤ length file.now }
    ensures { Word file.now i result }
{
    u32::from_le_bytes([file[i], file[i + 1], file[i + 2], file[i + 3]])
}

// The number that four binary digits write, if all are. Less "0000" each byte is 0 or 1, and a product brings the four side by side.
fn four_bits(word: u32) -> Option<u32>
    ensures { IfSome result (FourBits word) }
{
    let bits = std::num::wrapping_sub_u32(word, 0x30303030);
    let others = bits & 0xFEFEFEFE;
    if others != 0 {
        return None;
    }
    Some((u64::from(bits) * 0x08040201 / 16777216 % 16) as u32)
}

// The number that four digits write, if all are. Less "0000" each byte is below 16, and with 6 more it still is. Ten times a digit and
// the next one make a pair, in the place of the digit.
fn four_digits(word: u32) -> Option<u32>
    ensures { IfSome result (FourDigits word) }
{
    let digits = std::num::wrapping_sub_u32(word, 0x30303030);
    let others = digits & 0xF0F0F0F0;
    if others != 0 {
        return None;
    }
    let above = (digits + 0x06060606) & 0xF0F0F0F0;
    if above != 0 {
        return None;
    }
    let pairs = digits * 10 + digits / 256;
    Some(pairs % 256 * 100 + pairs / 65536 % 256)
}

// The last binary digit of a value line, if " !" and the line feed follow it.
fn last_bit(word: u32) -> Option<u32>
    ensures { IfSome result (LastBit word) }
{
    let bit = std::num::wrapping_sub_u32(word, 0x0A212030);
    if bit > 1 { None } else { Some(bit) }
}

// The number of a whole time line, if one stands there.
fn whole_time(file: &[u8], from: usize) -> Option<u32>
    requires { from ≤ 100000 }
    ensures { IfSome result (Whole time_line 4096 file.now from 6) }
{
    if from + 6 > file.len() {
        return None;
    }
    if file[from] != b'#' {
        return None;
    }
    if file[from + 5] != b'\n' {
        return None;
    }
    four_digits(word_at(file, from + 1))
}

// The number of a whole value line, if one stands there.
fn whole_value(file: &[u8], from: usize) -> Option<u32>
    requires { from ≤ 100000 }
    ensures { IfSome result (Whole value_line 16 file.now from 9) }
{
    if from + 9 > file.len() {
        return None;
    }
    if file[from] != b'b' {
        return None;
    }
    let front = four_bits(word_at(file, from + 1))?;
    let last = last_bit(word_at(file, from + 5))?;
    Some(front * 2 + last)
}

// A time line, of slice low or a later one.
pub(crate) fn time_at(file: &[u8], from: usize, low: u32) -> Result<u32, Deviation>
    requires { (from ≤ 100000) × (low ≤ 4096) }
    ensures { Reading time_line (IsTime low) file.now from 6 1 result }
{
    if let Some(time) = whole_time(file, from) {
        if time >= low {
            if time <= 4096 {
                return Ok(time);
            }
        }
    }
    time_begun(file, from, low)
}

// A value line, of another entry than the one before.
pub(crate) fn value_at(file: &[u8], from: usize, before: u32) -> Result<u32, Deviation>
    requires { from ≤ 100000 }
    ensures { Reading value_line (IsOther before) file.now from 9 1 result }
{
    if let Some(entry) = whole_value(file, from) {
        if entry <= 16 {
            if entry != before {
                return Ok(entry);
            }
        }
    }
    value_begun(file, from, before)
}
