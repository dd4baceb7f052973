// Numbers of units as decimal texts, written into the room of a text. What is written begins at a place, and the place where it ends is
// answered; what stands in front stays as it was.
ghost use Rattle.std.specs.Prelude.{◌≡◌, ◌+◌, ◌*◌, ◌%◌, ◌/◌, ◌^◌, ◌<◌, ◌≤◌, ◌++◌, ◌∷◌, [], codes, decimal, drop, length, slice_index, take};
ghost use Rattle.std.specs.Int.{from_le_bytes, to_le_bytes, w64};
ghost use Rattle.decimal_text.specs.Parts.{fraction_text, sign_text};
ghost use Rattle.decimal_text.specs.Scaling.{units_text};
ghost use Rattle.decimal_text.specs.Units.{fixed, trimmed};

use itoa::write_digits;

/// So many bytes have room. Some twenty positions fit.
pub(crate) const ROOM: usize = 512;

/// So many units are one, where there are nine places.
const UNIT: u64 = 1_000_000_000;

/// The word of eight digits that are zeros.
const ZEROS: u64 = 0x3030_3030_3030_3030;

/// The two digits of each number below 100.
static PAIRS: [u8; 200] =
    *b"00010203040506070809101112131415161718192021222324252627282930313233343536373839404142434445464748495051525354555657585960616263646566676869707172737475767778798081828384858687888990919293949596979899";

/// How many digits a number below 10,000 has.
#[tactic(auto, using(crate::proofs::Fixed::one_digit, crate::proofs::Fixed::digit_more))]
fn short_count(number: u64) -> usize
    requires { number < 10000 }
    ensures { result ≡ length (decimal number) }
{
    if number < 10 {
        return 1;
    }
    if number < 100 {
        return 2;
    }
    if number < 1000 {
        return 3;
    }
    4
}

/// How many digits a number has.
#[tactic(auto, using(crate::proofs::Fixed::four_more))]
fn digit_count(number: u64) -> usize
    ensures { result ≡ length (decimal number) }
{
    let mut left = number;
    let mut behind = 0;
    while left >= 10_000 {
        left /= 10_000;
        behind += 4;
    }
    short_count(left) + behind
}

/// How many of the digits are left without the zeros at their end. The first is no zero.
fn trimmed_count(digits: &[u8]) -> usize
    requires some { 0 < length digits.now }
    requires first { 48 < slice_index digits.now 0 }
    ensures some { 0 < result }
    ensures within { result ≤ length digits.now }
    ensures left { take result digits.now ≡ trimmed digits.now }
{
    let mut count = digits.len();
    while digits[count - 1] == b'0' {
        count -= 1;
    }
    count
}

/// Writes a byte.
fn byte_at(room: &mut [u8; ROOM], at: usize, byte: u8) -> usize
    requires { at < 512 }
    ensures end { result ≡ at + 1 }
    ensures written { take result room.new ≡ take at room.old ++ byte ∷ [] }
{
    room[at] = byte;
    at + 1
}

/// Writes a minus sign, or nothing. The sign is written always, so that no branch hangs on it.
fn sign_at(room: &mut [u8; ROOM], at: usize, negative: bool) -> usize
    requires { at < 512 }
    ensures short { result ≤ at + 1 }
    ensures written { take result room.new ≡ take at room.old ++ sign_text negative }
{
    room[at] = b'-';
    at + usize::from(negative)
}

/// Writes both digits of a number below 100.
#[tactic(auto, using(crate::proofs::Pairs::pair_at, crate::proofs::Rooms::two_written))]
fn two_at(room: &mut [u8; ROOM], at: usize, pair: u32) -> usize
    requires room { at ≤ 510 }
    requires pair { pair < 100 }
    ensures end { result ≡ at + 2 }
    ensures written { take result room.new ≡ take at room.old ++ fixed 2 pair }
{
    let from = pair as usize * 2;
    let (tens, ones) = (PAIRS[from], PAIRS[from + 1]);
    room[at] = tens;
    room[at + 1] = ones;
    at + 2
}

/// Writes the digits of a number, which are counted first.
#[tactic(auto, using(crate::proofs::Rooms::part_written))]
fn long_at(room: &mut [u8; ROOM], at: usize, number: u64) -> usize
    requires { at ≤ 492 }
    ensures short { result ≤ at + 20 }
    ensures written { take result room.new ≡ take at room.old ++ decimal number }
{
    let end = at + digit_count(number);
    write_digits(number, room, end);
    end
}

/// Writes the digits of a number. Most whole parts have three at most.
#[tactic(auto, using(crate::proofs::Fixed::two_digits, crate::proofs::Fixed::three_digits))]
fn whole_at(room: &mut [u8; ROOM], at: usize, number: u64) -> usize
    requires { at ≤ 492 }
    ensures short { result ≤ at + 20 }
    ensures written { take result room.new ≡ take at room.old ++ decimal number }
{
    if number < 10 {
        return byte_at(room, at, b'0' + number as u8);
    }
    if number < 100 {
        return two_at(room, at, number as u32);
    }
    if number < 1000 {
        let second = byte_at(room, at, b'0' + (number / 100) as u8);
        return two_at(room, second, (number % 100) as u32);
    }
    long_at(room, at, number)
}

/// Both digits of a number below 100 as a word, the first in its lowest byte.
#[tactic(auto, using(crate::proofs::Pairs::pair_at))]
fn pair_word(pair: u32) -> u64
    requires { pair < 100 }
    ensures is { result ≡ (48 + pair / 10 % 10) + 256 * (48 + pair % 10) }
    ensures small { result < 65536 }
{
    let from = pair as usize * 2;
    let (tens, ones) = (PAIRS[from] as u64, PAIRS[from + 1] as u64);
    tens + ones * 256
}

/// The last eight digits of a number as a word, the first in its lowest byte.
fn eight_word(number: u32) -> u64
    ensures { result ≡ from_le_bytes w64 (fixed 8 number) }
{
    let (high, low) = (number / 10_000, number % 10_000);
    let middle = high % 10_000;
    let first = pair_word(middle / 100);
    let second = pair_word(middle % 100);
    let third = pair_word(low / 100);
    let fourth = pair_word(low % 100);
    first + second * 65_536 + third * 4_294_967_296 + fourth * 281_474_976_710_656
}

/// Writes the eight bytes of a word, the lowest first.
fn word_at(room: &mut [u8; ROOM], at: usize, word: u64) -> usize
    requires { at ≤ 504 }
    ensures end { result ≡ at + 8 }
    ensures written { take result room.new ≡ take at room.old ++ to_le_bytes w64 word }
{
    let end = at + 8;
    room[at..end].copy_from_slice(&word.to_le_bytes());
    end
}

/// Writes the last eight digits of a number without the zeros at their end. These are the highest bytes of the word of all eight, where they
/// are counted with no branch that hangs on how many there are, since that differs from number to number.
fn eight_at(room: &mut [u8; ROOM], at: usize, number: u32) -> usize
    requires { at ≤ 504 }
    ensures short { result ≤ at + 8 }
    ensures written { take result room.new ≡ take at room.old ++ trimmed (fixed 8 number) }
{
    let word = eight_word(number);
    let end = word_at(room, at, word);
    let left = word - ZEROS;
    end - left.leading_zeros() as usize / 8
}

/// Writes a point and nine digits without the zeros at their end, or nothing where all are zeros.
fn fraction_at(room: &mut [u8; ROOM], at: usize, rest: u32) -> usize
    requires room { at ≤ 500 }
    requires rest { rest < 10 ^ 9 }
    ensures short { result ≤ at + 20 }
    ensures written { take result room.new ≡ take at room.old ++ fraction_text (trimmed (fixed 9 rest)) }
{
    if rest == 0 {
        return at;
    }
    let first = byte_at(room, at, b'.');
    let others = byte_at(room, first, b'0' + (rest / 10_000 / 10_000) as u8);
    eight_at(room, others, rest)
}

/// Writes a point and the digits of a number after its first, as many as `places`, without the zeros at their end, or nothing where all
/// are zeros. The first digit stands in the place of the point meanwhile.
fn rest_at(room: &mut [u8; ROOM], at: usize, number: u64, places: u32) -> usize
    requires room { at ≤ 480 }
    requires some { 0 < number }
    requires few { places ≤ 18 }
    requires digits { length (decimal number) ≡ places + 1 }
    ensures short { result ≤ at + 20 }
    ensures written { take result room.new ≡ take at room.old ++ fraction_text (trimmed (drop 1 (decimal number))) }
{
    let end = at + 1 + places as usize;
    write_digits(number, room, end);
    let count = trimmed_count(&room[at..end]);
    if count == 1 {
        return at;
    }
    room[at] = b'.';
    at + count
}

/// Writes so many units of 10^-9 without a sign.
fn nine_places_at(room: &mut [u8; ROOM], at: usize, size: u64) -> usize
    requires { at ≤ 460 }
    ensures short { result ≤ at + 40 }
    ensures written { take result room.new ≡ take at room.old ++ (decimal (size / 10 ^ 9) ++ fraction_text (trimmed (fixed 9 (size % 10 ^ 9)))) }
{
    let point = whole_at(room, at, size / UNIT);
    fraction_at(room, point, (size % UNIT) as u32)
}

/// Writes so many units of `10^-places` without a sign.
fn some_places_at(room: &mut [u8; ROOM], at: usize, size: u64, places: u32) -> usize
    requires room { at ≤ 460 }
    requires places { places ≤ 18 }
    ensures short { result ≤ at + 40 }
    ensures written { take result room.new ≡ take at room.old ++ (decimal (size / 10 ^ places) ++ fraction_text (trimmed (fixed places (size % 10 ^ places)))) }
{
    let unit = 10u64.pow(places);
    let point = whole_at(room, at, size / unit);
    rest_at(room, point, unit + size % unit, places)
}

/// Writes so many units of `10^-places` without a sign. Nearly all numbers have none or nine places, and division by a constant is fast.
fn size_at(room: &mut [u8; ROOM], at: usize, size: u64, places: u32) -> usize
    requires room { at ≤ 460 }
    requires places { places ≤ 18 }
    ensures short { result ≤ at + 40 }
    ensures written { take result room.new ≡ take at room.old ++ (decimal (size / 10 ^ places) ++ fraction_text (trimmed (fixed places (size % 10 ^ places)))) }
{
    if places == 9 {
        return nine_places_at(room, at, size);
    }
    if places == 0 {
        return whole_at(room, at, size);
    }
    some_places_at(room, at, size, places)
}

/// Writes a number of units of `10^-places` as the least decimal without exponent.
pub(crate) fn units_at(room: &mut [u8; ROOM], at: usize, units: i64, places: u32) -> usize
    requires room { at ≤ 459 }
    requires places { places ≤ 18 }
    ensures short { result ≤ at + 41 }
    ensures written { take result room.new ≡ take at room.old ++ units_text units places }
{
    let unsigned = sign_at(room, at, units < 0);
    size_at(room, unsigned, units.unsigned_abs(), places)
}

/// Writes two such numbers in brackets, with a comma between.
pub(crate) fn pair_at(room: &mut [u8; ROOM], at: usize, x: i64, y: i64, places: u32) -> usize
    requires room { at ≤ 416 }
    requires places { places ≤ 18 }
    ensures short { result ≤ at + 85 }
    ensures written { take result room.new ≡ take at room.old ++ (codes "[" ++ (units_text x places ++ (codes "," ++ (units_text y places ++ codes "]")))) }
{
    let first = byte_at(room, at, b'[');
    let comma = units_at(room, first, x, places);
    let second = byte_at(room, comma, b',');
    let end = units_at(room, second, y, places);
    byte_at(room, end, b']')
}
