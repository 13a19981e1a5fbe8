//! What spaces start with.

ghost use Rattle.std.specs.Prelude.{◌≡◌, IfOk, length};

use image_model::{Bytes, PageBytes, Region, Start};
use std::alloc::{AllocError, Global};

/// A page full of this byte.
fn page_of(alloc: Global, page: u64, byte: u8) -> Result<PageBytes, AllocError>
    ensures number { IfOk result (λ p. p.page ≡ page) }
    ensures whole { IfOk result (λ p. length p.bytes ≡ 4096) }
{
    Ok(PageBytes {
        page,
        bytes: Bytes::from_vec(vec![in alloc; byte; 4096]?),
    })
}

/// Pages 16 and 17 are code, 18 and 19 are data, and 20 may only be read; 16 and 18 are full of
/// this byte. No other page may be accessed.
fn start_of(alloc: Global, byte: u8) -> Result<Start, AllocError> {
    let code = Region {
        page: 16,
        count: 2,
        r: true,
        w: false,
        x: true,
    };
    let writable = Region {
        page: 18,
        count: 2,
        r: true,
        w: true,
        x: false,
    };
    let constant = Region {
        page: 20,
        count: 1,
        r: true,
        w: false,
        x: false,
    };
    let regions = vec![in alloc; code, writable, constant]?;
    let first = page_of(alloc, 16, byte)?;
    let second = page_of(alloc, 18, byte)?;
    let pages = vec![in alloc; first, second]?;
    Ok(Start::new(0x1_0000, regions, pages))
}

/// Two starts: the pages of the first are full of sevens, those of the second of fives.
pub fn starts(alloc: Global) -> Result<Vec<Start>, AllocError>
    ensures { IfOk result (λ starts. length starts.items ≡ 2) }
{
    let sevens = start_of(alloc, 7)?;
    let fives = start_of(alloc, 5)?;
    Ok(vec![in alloc; sevens, fives]?)
}
