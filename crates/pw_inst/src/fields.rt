// The fields of an instruction word, as they are read.
ghost use Rattle.std.specs.Prelude.{◌≡◌, ◌+◌, ◌^◌, ◌<◌, ◌≤◌, ℕ};
ghost use Rattle.pw_inst.specs.Fields.{field, at, twos_complement, signed, low_sign, low_signed, IsSigned};

/// The value that stands in the `width` bits of a word from bit `first` on.
#[inline(always)]
pub fn read(word: u32, first: u32, width: u32) -> u32
    requires begins { first + width ≤ 32 }
    requires narrow { width < 32 }
    requires wide { 1 ≤ width }
    ensures value { result ≡ field first width word }
    ensures small { result < 2 ^ width }
{
    word >> (32 - (first + width)) & ((1 << width) - 1)
}

/// The register whose number stands in the five bits from bit `first` on.
#[inline(always)]
pub fn register(word: u32, first: u32) -> u8
    requires { first + 5 ≤ 32 }
    ensures value { result ≡ field first 5 word }
    ensures small { result < 32 }
{
    read(word, first, 5) as u8
}

/// The number whose two's complement the `width` bits of `value` are.
#[inline(always)]
pub fn signed(value: u32, width: u32) -> i32
    requires wide { 1 ≤ width }
    requires narrow { width < 32 }
    requires fits { value < 2 ^ width }
    ensures { result ≡ signed width value }
{
    let half = 1 << (width - 1);
    if value < half {
        value as i32
    } else {
        (value - half) as i32 - half as i32
    }
}

/// The number that a field of `width` bits with low sign holds.
#[inline(always)]
pub fn low_signed(value: u32, width: u32) -> i32
    requires wide { 1 ≤ width }
    requires narrow { width < 32 }
    requires fits { value < 2 ^ width }
    ensures { result ≡ low_signed width value }
{
    signed((value % 2 << (width - 1)) + value / 2, width)
}

/// The word in which a value stands in the `width` bits from bit `first` on.
#[inline(always)]
pub fn place(first: u32, width: u32, value: u32) -> u32
    requires begins { first + width ≤ 32 }
    requires wide { 1 ≤ width }
    requires fits { value < 2 ^ width }
    ensures { result ≡ at first width value }
{
    value << (32 - (first + width))
}

/// The two's complement of a number, in `width` bits.
#[inline(always)]
pub fn twos_complement(number: i32, width: u32) -> u32
    requires wide { 1 ≤ width }
    requires narrow { width < 31 }
    requires fits { IsSigned width number }
    ensures value { result ≡ twos_complement width number }
    ensures small { result < 2 ^ width }
{
    let magnitude = number.unsigned_abs();
    if number < 0 {
        (1 << width) - magnitude
    } else {
        magnitude
    }
}

/// The field of `width` bits with low sign that holds a number.
#[inline(always)]
pub fn low_sign(number: i32, width: u32) -> u32
    requires wide { 1 ≤ width }
    requires narrow { width < 31 }
    requires fits { IsSigned width number }
    ensures value { result ≡ low_sign width number }
    ensures small { result < 2 ^ width }
{
    let value = twos_complement(number, width);
    let half = 1 << (width - 1);
    value % half * 2 + value / half
}
