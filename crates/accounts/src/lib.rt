// The books of a gate that keeps an account for each stream: what direct and offset windows share.
#![tactic(auto)]

pub mod accounts_of_streams;
pub mod all_accounts;
pub mod bookkeeping;
pub mod storages;

pub use bookkeeping::Books;
pub use storages::Storage;
