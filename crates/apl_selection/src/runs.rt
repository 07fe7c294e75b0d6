ghost use Rattle.std.specs.Prelude.{◌≡◌, ◌+◌, ◌≤◌, ◌++◌, length, vec_len, vec_capacity};

/// Adds a run of items, for which there is room.
pub(crate) fn push_run<T: Copy>(made: &mut Vec<T>, run: &[T])
    requires { vec_len made.old + length run.now ≤ vec_capacity made.old }
    ensures items { made.new.items ≡ made.old.items ++ run.now }
    ensures len { vec_len made.new ≡ vec_len made.old + length run.now }
    ensures room { vec_capacity made.old ≤ vec_capacity made.new }
{
    match made.extend_from_slice(run) {
        Ok(()) => {}
        Err(_) => unreachable!(),
    }
}
