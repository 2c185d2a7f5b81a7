//! Numbers in memory.

ghost use Rattle.std.specs.Prelude.{◌≡◌, ◌+◌, ◌≤◌, length};
ghost use Rattle.vt_riscv.specs.declared.memory.Size.TheVariants.{Half, Word, Double};
ghost use Rattle.vt_riscv.specs.promise.Memory.{width, number_at, number_within, stored, extended};

/// A size of numbers in memory.
#[derive(Clone, Copy)]
pub(crate) enum Size {
    Byte,
    Half,
    Word,
    Double,
}

/// How many bytes a number of a size has.
#[inline(always)]
pub(crate) fn width(size: Size) -> u64
    ensures { result ≡ width size }
{
    match size {
        Size::Byte => 1,
        Size::Half => 2,
        Size::Word => 4,
        Size::Double => 8,
    }
}

/// The number of 16 bits that lies at an offset in these bytes, its low byte first.
#[inline(always)]
pub(crate) fn half(bytes: &[u8], at: usize) -> u16
    requires { at + 2 ≤ length bytes.now }
    ensures { result ≡ number_at Half bytes.now at }
{
    u16::from_le_bytes([bytes[at], bytes[at + 1]])
}

/// The number of 32 bits that lies at an offset in these bytes, its low byte first.
#[inline(always)]
pub(crate) fn word(bytes: &[u8], at: usize) -> u32
    requires { at + 4 ≤ length bytes.now }
    ensures { result ≡ number_at Word bytes.now at }
{
    let mut found = [0; 4];
    found.copy_from_slice(&bytes[at..at + 4]);
    u32::from_le_bytes(found)
}

/// The number of 64 bits that lies at an offset in these bytes, its low byte first.
#[inline(always)]
fn double(bytes: &[u8], at: usize) -> u64
    requires { at + 8 ≤ length bytes.now }
    ensures { result ≡ number_at Double bytes.now at }
{
    let mut found = [0; 8];
    found.copy_from_slice(&bytes[at..at + 8]);
    u64::from_le_bytes(found)
}

/// The number of a size that lies at an offset in these bytes, its low byte first.
#[inline(always)]
fn number(bytes: &[u8], at: usize, size: Size) -> u64
    requires { at + width size ≤ length bytes.now }
    ensures { result ≡ number_at size bytes.now at }
{
    match size {
        Size::Byte => u64::from(bytes[at]),
        Size::Half => u64::from(half(bytes, at)),
        Size::Word => u64::from(word(bytes, at)),
        Size::Double => double(bytes, at),
    }
}

/// The number of a size that lies at an offset in these bytes, if all of it does.
#[inline(always)]
pub(crate) fn number_within(bytes: &[u8], at: u64, size: Size) -> Option<u64>
    ensures { result ≡ number_within size bytes.now at }
{
    let len = bytes.len() as u64;
    if at <= len && width(size) <= len - at {
        Some(number(bytes, at as usize, size))
    } else {
        None
    }
}

/// Puts a number of a size at an offset in these bytes, its low byte first.
#[inline(always)]
pub(crate) fn store(bytes: &mut [u8], at: usize, size: Size, v: u64)
    requires { at + width size ≤ length bytes.old }
    ensures { bytes.new ≡ stored size bytes.old at v }
{
    match size {
        Size::Byte => bytes[at] = (v % 0x100) as u8,
        Size::Half => bytes[at..at + 2].copy_from_slice(&((v % 0x1_0000) as u16).to_le_bytes()),
        Size::Word => bytes[at..at + 4].copy_from_slice(
            &((v % 0x1_0000_0000) as u32).to_le_bytes(),
        ),
        Size::Double => bytes[at..at + 8].copy_from_slice(&v.to_le_bytes()),
    }
}

/// A number from memory as 64 bits, by its sign.
#[inline(always)]
pub(crate) fn extended(size: Size, v: u64) -> u64
    ensures { result ≡ extended size v }
{
    match size {
        Size::Byte => i64::from(((v % 0x100) as u8).cast_signed()).cast_unsigned(),
        Size::Half => i64::from(((v % 0x1_0000) as u16).cast_signed()).cast_unsigned(),
        Size::Word => i64::from(((v % 0x1_0000_0000) as u32).cast_signed()).cast_unsigned(),
        Size::Double => v,
    }
}
