//! Fields put behind bytes. Out of memory the bytes are as before.

ghost use Rattle.std.specs.Prelude.{◌≡◌, ◌<◌, ◌≤◌, ◌^◌, ◌++◌, length, OnOk, OnErr};
ghost use Rattle.coco_bytes.specs.Fields.{u8_bytes, flag_bytes, u16_bytes, u32_bytes, u64_bytes, i64_bytes, bytes16};

use coco_types::NoMemory;

/// Puts a byte behind the bytes.
pub fn put_u8(out: &mut Vec<u8>, n: u8) -> Result<(), NoMemory>
    ensures ok { OnOk result (out.new.items ≡ out.old.items ++ u8_bytes n) }
    ensures err { OnErr result (out.new.items ≡ out.old.items) }
{
    out.push(n)?;
    Ok(())
}

/// Puts a flag's byte behind the bytes.
pub fn put_flag(out: &mut Vec<u8>, flag: bool) -> Result<(), NoMemory>
    ensures ok { OnOk result (out.new.items ≡ out.old.items ++ flag_bytes flag) }
    ensures err { OnErr result (out.new.items ≡ out.old.items) }
{
    put_u8(out, flag as u8)
}

/// Puts a number's two bytes behind the bytes.
pub fn put_u16(out: &mut Vec<u8>, n: u16) -> Result<(), NoMemory>
    ensures ok { OnOk result (out.new.items ≡ out.old.items ++ u16_bytes n) }
    ensures err { OnErr result (out.new.items ≡ out.old.items) }
{
    out.extend_from_slice(&n.to_be_bytes())?;
    Ok(())
}

/// Puts a number's four bytes behind the bytes.
pub fn put_u32(out: &mut Vec<u8>, n: u32) -> Result<(), NoMemory>
    ensures ok { OnOk result (out.new.items ≡ out.old.items ++ u32_bytes n) }
    ensures err { OnErr result (out.new.items ≡ out.old.items) }
{
    out.extend_from_slice(&n.to_be_bytes())?;
    Ok(())
}

/// Puts a number's eight bytes behind the bytes.
pub fn put_u64(out: &mut Vec<u8>, n: u64) -> Result<(), NoMemory>
    ensures ok { OnOk result (out.new.items ≡ out.old.items ++ u64_bytes n) }
    ensures err { OnErr result (out.new.items ≡ out.old.items) }
{
    out.extend_from_slice(&n.to_be_bytes())?;
    Ok(())
}

/// Puts a signed number's eight bytes behind the bytes.
pub fn put_i64(out: &mut Vec<u8>, n: i64) -> Result<(), NoMemory>
    ensures ok { OnOk result (out.new.items ≡ out.old.items ++ i64_bytes n) }
    ensures err { OnErr result (out.new.items ≡ out.old.items) }
{
    out.extend_from_slice(&n.to_be_bytes())?;
    Ok(())
}

/// Puts a length of two bytes, and that many bytes, behind the bytes.
pub fn put_bytes16(out: &mut Vec<u8>, bytes: &[u8]) -> Result<(), NoMemory>
    requires { length bytes.now < 2 ^ 16 }
    ensures ok { OnOk result (out.new.items ≡ out.old.items ++ bytes16 bytes.now) }
    ensures err { OnErr result (out.new.items ≡ out.old.items) }
{
    put_both(out, &(bytes.len() as u16).to_be_bytes(), bytes)
}

// Puts two pieces behind the bytes, or none.
pub fn put_both(out: &mut Vec<u8>, first: &[u8], second: &[u8]) -> Result<(), NoMemory>
    ensures ok { OnOk result (out.new.items ≡ out.old.items ++ (first.now ++ second.now)) }
    ensures err { OnErr result (out.new.items ≡ out.old.items) }
{
    // With room for both none of the two is refused.
    out.reserve(first.len() + second.len())?;
    out.extend_from_slice(first)?;
    out.extend_from_slice(second)?;
    Ok(())
}
