// Reading the items of a slice: eight bytes each, the least first.
ghost use Rattle.std.specs.Prelude.{◌<◌, IfOk};

use crate::BadCase;
use std::num::f64_from_bits_with_nan;

// The float that has these bytes; the NaN where they are a NaN's.
pub fn float_of(bytes: [u8; 8]) -> f64 {
    f64_from_bits_with_nan(u64::from_le_bytes(bytes))
}

// Reads as many bytes as the slice has.
fn fill(bytes: &mut [u8]) -> Result<(), BadCase> {
    if io::read_full(0, bytes) == bytes.len() {
        Ok(())
    } else {
        Err(BadCase)
    }
}

// Reads the three sizes of a case, in one reading.
pub fn read_sizes() -> Result<[usize; 3], BadCase> {
    let mut bytes = [0; 24];
    fill(&mut bytes)?;
    let (eights, _) = bytes.as_chunks::<8>();
    let mut sizes = [0; 3];
    for (size, &eight) in sizes.iter_mut().zip(eights) {
        *size = usize::from_le_bytes(eight);
    }
    Ok(sizes)
}

// Reads a slice's count of items.
fn read_count() -> Result<usize, BadCase>
    ensures { IfOk result (λ count. count < 65536) }
{
    let mut two = [0; 2];
    fill(&mut two)?;
    Ok(usize::from(u16::from_le_bytes(two)))
}

// Reads the bytes of a slice to the start of a room. Answers that part of it.
pub fn read_bytes(room: &mut [u8]) -> Result<&mut [u8], BadCase> {
    let length = 8 * read_count()?;
    if room.len() < length {
        return Err(BadCase);
    }
    let bytes = &mut room[..length];
    fill(bytes)?;
    Ok(bytes)
}

// Reads the items of a slice to the start of a room, by way of a room for their bytes. Answers that part of it.
pub fn read_items<'s, T: Copy, F: Fn([u8; 8]) -> T>(
    room: &'s mut [T],
    bytes: &mut [u8],
    item_of: F,
) -> Result<&'s mut [T], BadCase>
    requires { F.IsAlwaysCallable item_of }
{
    let (eights, _) = read_bytes(bytes)?.as_chunks::<8>();
    if room.len() < eights.len() {
        return Err(BadCase);
    }
    let items = &mut room[..eights.len()];
    for (item, &eight) in items.iter_mut().zip(eights) {
        *item = item_of(eight);
    }
    Ok(items)
}

// The items, if there are so many.
pub fn exactly<T>(count: usize, items: &mut [T]) -> Result<&mut [T], BadCase> {
    if items.len() == count {
        Ok(items)
    } else {
        Err(BadCase)
    }
}

// Reads a slice that has exactly N items.
pub fn read_array<const N: usize, T: Copy + Default, F: Fn([u8; 8]) -> T>(
    bytes: &mut [u8],
    item_of: F,
) -> Result<[T; N], BadCase>
    requires { F.IsAlwaysCallable item_of }
{
    let mut items = [T::default(); N];
    exactly(N, read_items(&mut items, bytes, item_of)?)?;
    Ok(items)
}
