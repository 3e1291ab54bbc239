//! Takes back what threads shared, once they have ended.

ghost use Rattle.std.specs.Prelude.{◌≡◌};
ghost use Rattle.std.specs.Arc.{arc_value};

use std::sync::{Arc, Wait};
use std::thread;

/// Returns the value, once nobody else shares it. Called once all threads that shared it were joined: the last of them
/// is then about to let go of it, and this waits for that.
pub fn unshared<R: Wait, T>(rt: &R, shared: Arc<T>) -> T
    ensures { result ≡ arc_value shared }
{
    let mut shared = shared;
    for _ in rt.forever() {
        match Arc::try_unwrap(shared) {
            Ok(value) => return value,
            Err(back) => shared = back,
        }
        thread::yield_now();
    }
    unreachable!()
}
