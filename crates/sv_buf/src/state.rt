// What the turn of the cache guards.
ghost use Rattle.std.specs.Prelude.{◌≡◌, Some, IsSome};

use sv_cache::CacheCore;
use sv_request::Requests;

/// The buffers with the device, the buffers that wait for the worker, and whether it is to stop.
pub struct State<D> {
    pub(crate) core: CacheCore<D>,
    pub(crate) requests: Requests,
    pub(crate) stopping: bool,
}

impl<D> State<D> {
    // Ends the state, with all bytes that its buffers have.
    pub(crate) fn into_disk(self) -> D
        requires { IsSome self.core.device }
        ensures { self.core.device ≡ Some result }
    {
        let State {
            core,
            requests: _,
            stopping: _,
        } = self;
        core.into_device().unwrap()
    }
}
