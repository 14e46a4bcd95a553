//! What cancel states allow (`PTH_ATTR_CANCEL_STATE`): 1 is enabled and deferred, 2 disabled and deferred, 3 enabled and
//! asynchronous, 4 disabled and asynchronous.

ghost use Rattle.std.specs.Prelude.{◌≡◌};
ghost use Rattle.pth_model.specs.Cancellation.{is_asynchronous, is_enabled};

const ENABLED_DEFERRED: u8 = 1;

const ENABLED_ASYNCHRONOUS: u8 = 3;

/// Whether a thread in this state lets itself be canceled (`PTH_CANCEL_ENABLE`), be it at cancellation points or at any moment.
pub fn is_enabled(cancel: u8) -> bool
    ensures { result ≡ is_enabled cancel }
{
    cancel == ENABLED_DEFERRED || cancel == ENABLED_ASYNCHRONOUS
}

/// Whether it lets itself be canceled at any moment (`PTH_CANCEL_ENABLE` with `PTH_CANCEL_ASYNCHRONOUS`).
pub fn is_asynchronous(cancel: u8) -> bool
    ensures { result ≡ is_asynchronous cancel }
{
    cancel == ENABLED_ASYNCHRONOUS
}
