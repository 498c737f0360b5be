// The events of the cache's turn. Buffer k has the event `FIRST_BUFFER` + k.

/// Some buffer became free.
pub const ANY_BUFFER: u32 = 0;

/// The device came home.
pub const DEVICE: u32 = 1;

/// There is a request for the worker, or it is to stop.
pub const WORKER: u32 = 2;

/// The first of the events on which those sleep who wait for one buffer.
pub const FIRST_BUFFER: u32 = 3;
