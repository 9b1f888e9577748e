//! Rows of device registers: registers of one kind at equal distances, as one for each hart.
#![tactic(auto)]

#[cfg(test)]
mod tests;

ghost use Rattle.std.specs.Prelude.{◌≡◌, ◌<◌, ◌^◌, IfSome};
ghost use Rattle.device_rows.specs.Rows.{row_at};

/// The number of the register at offset `off`, in a row of `count` of them, one each `stride` bytes
/// from `start` on.
#[tactic(auto, unfolding(crate::specs::Rows::row_at))]
pub fn row_at(start: u64, stride: u64, count: u8, off: u64) -> Option<u8>
    requires stride { (0 < stride) × (stride < 2 ^ 16) }
    requires start { start < 2 ^ 32 }
    ensures value { result ≡ row_at start stride count off }
    ensures inside { IfSome result (λ i. i < count) }
{
    let end = start + stride * u64::from(count);
    if start <= off && off < end && (off - start) % stride == 0 {
        Some(((off - start) / stride) as u8)
    } else {
        None
    }
}
