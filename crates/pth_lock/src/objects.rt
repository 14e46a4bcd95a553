//! The numbers by which calls name mutexes, read-write locks, conditions and barriers.

ghost use Rattle.std.specs.Prelude.{◌≡◌, ◌<◌, ◌≤◌, length, Some, None, IfSome, IfNone, IfOk, IfErr, OnErr};
ghost use Rattle.pth_base.specs.Table.{table};
ghost use Rattle.pth_lock.specs.Objects.{object_limit, object_named};

use pth_base::errno::Errno;

/// How many objects there are of each kind: mutexes, read-write locks, conditions, barriers.
pub const MOST_OBJECTS: usize = 64;

/// Where the object stands that an operand names. None where there is no such object.
pub fn place_of(o: i64) -> Option<usize>
    ensures named { IfSome result (λ place. place ≡ object_named o) }
    ensures low { IfSome result (λ place. place < object_limit) }
    ensures none { IfNone result (object_limit ≤ object_named o) }
{
    if o < 0 || o >= MOST_OBJECTS as i64 {
        return None;
    }
    Some(o as usize)
}

// An initialised object, with where it stands: None stands where one is not initialised.
pub(crate) fn find<T: Copy>(objects: &[Option<T>], o: i64) -> Result<(usize, T), Errno>
    requires { length objects.now ≡ object_limit }
    ensures refused { IfErr result (λ e. e ≡ Errno.EINVAL) }
    ensures unknown { OnErr result (table None objects.now (object_named o) ≡ None) }
    ensures known { IfOk result (λ f. table None objects.now (object_named o) ≡ Some f.1) }
    ensures named { IfOk result (λ f. f.0 ≡ object_named o) }
    ensures low { IfOk result (λ f. f.0 < object_limit) }
{
    let Some(place) = place_of(o) else {
        return Err(Errno::EINVAL);
    };
    match objects[place] {
        Some(object) => Ok((place, object)),
        None => Err(Errno::EINVAL),
    }
}
