//! How far an address is from another.

ghost use Rattle.std.specs.Prelude.{◌≡◌, ◌-◌, ◌<◌, ◌≤◌, ◌^◌, pos, negsuc, neg_ℤ, ◌-ℤ◌, IfSome};
ghost use Rattle.std.specs.Result.{result_ok};
ghost use Rattle.asm_image.specs.Offsets.{IsWithin};
ghost use Rattle.asm_lines.specs.Statement.{ranged_even};

/// The distance from an address to another, where it is even, from `-limit` on and below `limit`.
/// A limit is at most 2^20.
pub fn offset_within(from: u128, to: u128, limit: u32) -> Option<i32>
    requires low { 0 < limit }
    requires high { limit ≤ 2 ^ 20 }
    ensures value { result ≡ result_ok (ranged_even (negsuc (limit - 1)) (pos (limit - 1))
        (pos to -ℤ pos from)) }
    ensures within { IfSome result (IsWithin limit) }
{
    if from <= to {
        ahead(to - from, limit)
    } else {
        back(from - to, limit)
    }
}

/// `offset_within` of an address so many bytes ahead.
fn ahead(distance: u128, limit: u32) -> Option<i32>
    requires low { 0 < limit }
    requires high { limit ≤ 2 ^ 20 }
    ensures value { result ≡ result_ok (ranged_even (negsuc (limit - 1)) (pos (limit - 1))
        (pos distance)) }
    ensures within { IfSome result (IsWithin limit) }
{
    if distance < u128::from(limit) && distance % 2 == 0 {
        Some(distance as i32)
    } else {
        None
    }
}

/// `offset_within` of an address so many bytes back.
fn back(distance: u128, limit: u32) -> Option<i32>
    requires some { 0 < distance }
    requires low { 0 < limit }
    requires high { limit ≤ 2 ^ 20 }
    ensures value { result ≡ result_ok (ranged_even (negsuc (limit - 1)) (pos (limit - 1))
        (neg_ℤ (pos distance))) }
    ensures within { IfSome result (IsWithin limit) }
{
    if distance <= u128::from(limit) && distance % 2 == 0 {
        Some(-(distance as i32))
    } else {
        None
    }
}
