//! Bytes in place: at the front of an array, with zeros behind them.
ghost use Rattle.std.specs.Prelude.{◌≡◌, ◌≤◌, ◌++◌, length, drop};
ghost use Rattle.coco_types.specs.Padded.{padded};

/// The bytes, with zeros behind them.
pub fn padded<const N: usize>(from: &[u8]) -> [u8; N]
    requires { length from.now ≤ N }
    ensures { result ≡ padded N from.now }
{
    let mut bytes = [0u8; N];
    put_front(&mut bytes, from);
    bytes
}

/// Writes over the first bytes, and leaves the others.
pub fn put_front(into: &mut [u8], from: &[u8])
    requires { length from.now ≤ length into.old }
    ensures { into.new ≡ from.now ++ drop (length from.now) into.old }
{
    let (front, _) = into.split_at_mut(from.len());
    front.copy_from_slice(from);
}
