// Which corner goes next.
pub mod corner_queue;
pub mod entry;
pub mod looking;
pub mod pushing;
pub mod rounds;
pub mod waiting_lists;
