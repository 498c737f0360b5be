// Numbers on the image, lowest byte first.
ghost use Rattle.std.specs.Prelude.{◌≡◌, ◌+◌, ◌^◌, ◌<◌, ◌≤◌, ◌↔◌, length, slice_index, EachIndex, IsTrue};
ghost use Rattle.sv_form.specs.Number.{number16, number24, number32, IsZero, ChangesOnly};

/// The number of 2 bytes at that place.
pub fn number16(bytes: &[u8], at: usize) -> u16
    requires { at + 2 ≤ length bytes.now }
    ensures { result ≡ number16 bytes.now at }
{
    u16::from(bytes[at]) + 256 * u16::from(bytes[at + 1])
}

/// The number of 3 bytes at that place.
pub fn number24(bytes: &[u8], at: usize) -> u32
    requires { at + 3 ≤ length bytes.now }
    ensures value { result ≡ number24 bytes.now at }
    ensures fits { result < 2 ^ 24 }
{
    u32::from(number16(bytes, at)) + 65536 * u32::from(bytes[at + 2])
}

/// The number of 4 bytes at that place.
pub fn number32(bytes: &[u8], at: usize) -> u32
    requires { at + 4 ≤ length bytes.now }
    ensures { result ≡ number32 bytes.now at }
{
    u32::from(number16(bytes, at)) + 65536 * u32::from(number16(bytes, at + 2))
}

/// Whether each byte from one place up to another is 0.
pub fn is_zero(bytes: &[u8], from: usize, upto: usize) -> bool
    requires order { from ≤ upto }
    requires within { upto ≤ length bytes.now }
    ensures { IsTrue result ↔ IsZero bytes.now from upto }
{
    are_zero(&bytes[from..upto])
}

// Whether all of these bytes are 0.
fn are_zero(bytes: &[u8]) -> bool
    ensures { IsTrue result ↔ EachIndex bytes.now (λ k. slice_index bytes.now k ≡ 0) }
{
    bytes.iter().all(|byte| *byte == 0)
}

/// Writes a number of 2 bytes at that place.
pub fn write_number16(bytes: &mut [u8], at: usize, number: u16)
    requires { at + 2 ≤ length bytes.old }
    ensures number { number16 bytes.new at ≡ number }
    ensures others { ChangesOnly bytes.old bytes.new at (at + 2) }
{
    bytes[at] = (number % 256) as u8;
    bytes[at + 1] = (number / 256) as u8;
}

/// Writes a number of 3 bytes at that place.
pub fn write_number24(bytes: &mut [u8], at: usize, number: u32)
    requires room { at + 3 ≤ length bytes.old }
    requires fits { number < 2 ^ 24 }
    ensures number { number24 bytes.new at ≡ number }
    ensures others { ChangesOnly bytes.old bytes.new at (at + 3) }
{
    write_number16(bytes, at, (number % 65536) as u16);
    bytes[at + 2] = (number / 65536) as u8;
}

/// Writes a number of 4 bytes at that place.
pub fn write_number32(bytes: &mut [u8], at: usize, number: u32)
    requires { at + 4 ≤ length bytes.old }
    ensures number { number32 bytes.new at ≡ number }
    ensures others { ChangesOnly bytes.old bytes.new at (at + 4) }
{
    write_number16(bytes, at, (number % 65536) as u16);
    write_number16(bytes, at + 2, (number / 65536) as u16);
}

/// Writes zero bytes from one place up to another.
pub fn write_zeros(bytes: &mut [u8], from: usize, upto: usize)
    requires order { from ≤ upto }
    requires within { upto ≤ length bytes.old }
    ensures zeros { IsZero bytes.new from upto }
    ensures others { ChangesOnly bytes.old bytes.new from upto }
{
    bytes[from..upto].fill(0);
}
