// The steps, one op at a time: its condition, its replies, and what each reply changes.
mod create;
mod entering;
mod files;
mod links;
mod names;
mod promises;
mod purge;
mod reads;
mod removal;
mod room_needs;
mod stat;
mod sync;
mod trunc;
mod writes;
