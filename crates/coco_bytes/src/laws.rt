//! What was put is read again, and what is read was put.

ghost use Rattle.std.specs.Prelude.{ℕ, ◌<◌, ◌≤◌, ◌^◌, length, FitsSigned};
ghost use Rattle.std.specs.Int.{w64};
ghost use Rattle.coco_bytes.specs.Fields.{u8_bytes, flag_bytes, u16_bytes, u32_bytes, u64_bytes, i64_bytes, bytes16};
ghost use Rattle.coco_bytes.specs.Reads.{Agree, u8_at, flag_at, u16_at, u32_at, u64_at, i64_at, text16_at};
ghost use Rattle.coco_bytes.specs.Values.{key_bytes, IsKey, key_at, value_bytes, IsValue, value_at};

/// Each field that stands at a place is read there, and a field that was read stands there.
pub fn fields_read_back()
    ensures byte { Agree u8_at u8_bytes (λ n. n < 2 ^ 8) }
    ensures flag { Agree flag_at flag_bytes (λ _. Unit {0}) }
    ensures two { Agree u16_at u16_bytes (λ n. n < 2 ^ 16) }
    ensures four { Agree u32_at u32_bytes (λ n. n < 2 ^ 32) }
    ensures eight { Agree u64_at u64_bytes (λ n. n < 2 ^ 64) }
    ensures signed { Agree i64_at i64_bytes (FitsSigned w64) }
    ensures counted { (most : ℕ) → most < 2 ^ 16
        → Agree (text16_at most) bytes16 (λ bytes. length bytes ≤ most) }
    ensures key { Agree key_at key_bytes IsKey }
    ensures value { Agree value_at value_bytes IsValue }
{}
