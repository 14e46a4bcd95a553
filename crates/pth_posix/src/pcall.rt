//! What a program asks of POSIX.

/// A POSIX thread call with its operands as the program gives them. They name things by their numbers on the machine: mutexes `m`,
/// conditions `c`, read-write locks, barriers `b` and once controls `o` from 0 to 63, keys `k` from 0 to 255, threads from 1, handlers `h`
/// from 0. An operand out of its range is refused as Pth refuses it.
#[derive(Clone, Copy)]
pub enum PCall {
    /// No call. The next answer is none.
    Nothing,
    /// `pthread_create`, of the body with this number, from 0, which gets this argument.
    Create { body: i64, arg: i64 },
    /// `pthread_self`.
    SelfId,
    /// `sched_yield`.
    Yield,
    /// `pthread_testcancel`.
    TestCancel,
    /// `pthread_exit`, with this value. It is never answered.
    Exit(i64),
    /// `pthread_join`, which answers the value with which the thread ended.
    Join(i64),
    /// `pthread_cancel`.
    Cancel(i64),
    /// `pthread_setcancelstate`: 0 is `PTHREAD_CANCEL_ENABLE`, 1 `PTHREAD_CANCEL_DISABLE`. It answers the old state.
    SetState(i64),
    /// `pthread_setcanceltype`: 0 is `PTHREAD_CANCEL_DEFERRED`, 1 `PTHREAD_CANCEL_ASYNCHRONOUS`. It answers the old type.
    SetType(i64),
    /// `pthread_cleanup_push`.
    Push { h: i64, arg: i64 },
    /// `pthread_cleanup_pop`, which runs the handler if its operand is not 0.
    Pop(i64),
    /// `pthread_key_create`, with the handler that destroys values, if there is one.
    KeyCreate(Option<i64>),
    /// `pthread_key_delete`.
    KeyDelete(i64),
    /// `pthread_setspecific`.
    SetSpecific { k: i64, v: i64 },
    /// `pthread_getspecific`.
    GetSpecific(i64),
    /// `pthread_once`, of a handler that gets this argument.
    Once { o: i64, h: i64, arg: i64 },
    /// `pthread_mutex_init`. Mutexes are recursive, up to 65,535 levels.
    MutexInit(i64),
    /// `pthread_mutex_lock`.
    Lock(i64),
    /// `pthread_mutex_trylock`.
    TryLock(i64),
    /// `pthread_mutex_unlock`.
    Unlock(i64),
    /// `pthread_cond_init`.
    CondInit(i64),
    /// `pthread_cond_signal`.
    Signal(i64),
    /// `pthread_cond_broadcast`.
    Broadcast(i64),
    /// `pthread_cond_wait`.
    CondWait { c: i64, m: i64 },
    /// `pthread_cond_timedwait`, until a moment in microseconds of virtual time from the start of the run. One below 0 is EINVAL.
    TimedWait { c: i64, m: i64, at: i64 },
    /// `pthread_rwlock_init`.
    RwInit(i64),
    /// `pthread_rwlock_rdlock`.
    RdLock(i64),
    /// `pthread_rwlock_wrlock`.
    WrLock(i64),
    /// `pthread_rwlock_unlock`.
    RwUnlock(i64),
    /// `pthread_barrier_init`, for 1 to 4,096 threads.
    BarrierInit { b: i64, n: i64 },
    /// `pthread_barrier_wait`.
    BarrierWait(i64),
}
