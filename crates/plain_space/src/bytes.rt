//! Numbers in the bytes of a page, the lowest byte first.

ghost use Rattle.std.specs.Prelude.{◌≡◌, ℕ, ◌+◌, ◌<◌, ◌≤◌, ◌⊎◌, length, slice_index};
ghost use Rattle.std.specs.Prelude.{IfOk, take, drop};
ghost use Rattle.machine_model.specs.Machine.{address, bytes_at, little_endian, low_bytes};
ghost use Rattle.plain_space.specs.Pages.{Overlays};

use std::alloc::{AllocError, Global};

/// So many zeros.
pub fn zeros(alloc: Global, n: usize) -> Result<Vec<u8>, AllocError>
    ensures whole { IfOk result (λ bytes. length bytes.items ≡ n) }
    ensures zeros { IfOk result (λ bytes. (k : ℕ) → slice_index bytes.items k ≡ 0) }
{
    Ok(vec![in alloc; 0; n]?)
}

/// Zeros in the place of all bytes.
pub fn clear(bytes: &mut [u8])
    ensures whole { length bytes.new ≡ length bytes.old }
    ensures zeros { (k : ℕ) → slice_index bytes.new k ≡ 0 }
{
    bytes.fill(0);
}

/// Fills a buffer with the bytes from the offset on.
pub fn read_piece(bytes: &[u8], offset: usize, buf: &mut [u8])
    requires { offset + length buf.old ≤ length bytes.now }
    ensures { buf.new ≡ take (length buf.old) (drop offset bytes.now) }
{
    buf.copy_from_slice(&bytes[offset..offset + buf.len()]);
}

/// The number that `n` bytes from the offset on spell, as they do in each memory with these
/// bytes.
#[inline]
pub fn read_number(bytes: &[u8], offset: usize, n: u8) -> u64
    requires size { (n ≡ 1) ⊎ (n ≡ 2) ⊎ (n ≡ 4) ⊎ (n ≡ 8) }
    requires within { offset + n ≤ length bytes.now }
    ensures { (memory : ℕ → ℕ) (at : ℕ)
        → ((i : ℕ) → i < n → memory (address at i) ≡ slice_index bytes.now (offset + i))
        → result ≡ little_endian (bytes_at memory at n) }
{
    match n {
        1 => u64::from(bytes[offset]),
        2 => u64::from(u16::from_le_bytes([bytes[offset], bytes[offset + 1]])),
        4 => u64::from(read_word(bytes, offset)),
        _ => u64::from_le_bytes([
            bytes[offset],
            bytes[offset + 1],
            bytes[offset + 2],
            bytes[offset + 3],
            bytes[offset + 4],
            bytes[offset + 5],
            bytes[offset + 6],
            bytes[offset + 7],
        ]),
    }
}

/// The number that 4 bytes from the offset on spell.
#[inline]
pub fn read_word(bytes: &[u8], offset: usize) -> u32
    requires { offset + 4 ≤ length bytes.now }
    ensures { (memory : ℕ → ℕ) (at : ℕ)
        → ((i : ℕ) → i < 4 → memory (address at i) ≡ slice_index bytes.now (offset + i))
        → result ≡ little_endian (bytes_at memory at 4) }
{
    u32::from_le_bytes([
        bytes[offset],
        bytes[offset + 1],
        bytes[offset + 2],
        bytes[offset + 3],
    ])
}

/// The bytes with a piece of them at the offset.
#[inline]
pub fn write_piece(bytes: &mut [u8], offset: usize, piece: &[u8])
    requires { offset + length piece.now ≤ length bytes.old }
    ensures { Overlays bytes.old bytes.new offset piece.now }
{
    bytes[offset..offset + piece.len()].copy_from_slice(piece);
}

/// The bytes with the `n` low ones of a number at the offset.
#[inline]
pub fn write_number(bytes: &mut [u8], offset: usize, n: u8, v: u64)
    requires size { (n ≡ 1) ⊎ (n ≡ 2) ⊎ (n ≡ 4) ⊎ (n ≡ 8) }
    requires within { offset + n ≤ length bytes.old }
    ensures { Overlays bytes.old bytes.new offset (low_bytes n v) }
{
    let all = v.to_le_bytes();
    match n {
        1 => write_piece(bytes, offset, &all[..1]),
        2 => write_piece(bytes, offset, &all[..2]),
        4 => write_piece(bytes, offset, &all[..4]),
        _ => write_piece(bytes, offset, &all),
    }
}
