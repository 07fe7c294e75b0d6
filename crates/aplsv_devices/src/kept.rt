ghost use Rattle.std.specs.Prelude.{◌≡◌, ◌+◌, ◌≤◌, ◌++◌, IfSome, IsSomeAnd, length, vec_len};
ghost use Rattle.apl_arrays.specs.Limits.{most_input_bytes};

/// The most bytes that a source keeps of what it read: as many as a bundle may have.
pub const KEPT_LIMIT: usize = 4_194_304;

/// Kept bytes, and these behind them; `None` where there would be too many, where memory runs out, or where nothing is kept
/// any more. It takes memory for the bytes.
pub fn kept_with(kept: Option<Vec<u8>>, piece: &[u8]) -> Option<Vec<u8>>
    ensures { IfSome result (λ more. IsSomeAnd kept (λ bytes. more.items ≡ bytes.items ++ piece.now) × (vec_len more ≤ most_input_bytes)) }
{
    let mut bytes = kept?;
    if bytes.len() > KEPT_LIMIT || piece.len() > KEPT_LIMIT - bytes.len() {
        return None;
    }
    match bytes.extend_from_slice(piece) {
        Ok(()) => Some(bytes),
        Err(_) => None,
    }
}
