//! Hostile use: a disk fails, a client hangs up. Here are the cases that need an outside that fails or waits when it is told to; a folder or
//! a message of one byte too many is a row of `checks/rows/hostile.json`. The cases, and the function in which each is tried.
//!
//! - a read of a file fails, or a read or a write of the console, under each command: `commands::the_disk_or_the_console_fails`,
//!   `commands::a_session_fails`
//! - each write of a session fails in turn: `commands::each_write_of_a_session_fails`
//! - each read of a publication fails in turn: `commands::each_read_of_a_publication_fails`
//! - the reply to a closure can't be written; the second read of a session fails; a closure comes but for its last byte:
//!   `messages::links_fail_or_end`
//! - the second accept of a service fails, or its bind, or a write of its console: `services::doors_or_the_console_fail`
//! - an address of 256 bytes, at doors that take any: `services::an_address_has_256_bytes`
//! - two workers and three connections, of which one sends nothing and one fails: `services::a_client_says_nothing_and_another_fails`
//! - a folder is published while another's reply fails in its middle: `seats::a_folder_is_published_in_the_middle_of_a_reply`
//! - at a seat, each read of a publication fails in turn, and the reply to a closure can't be written:
//!   `seats::each_read_of_a_publication_fails_at_a_seat`, `seats::the_write_of_a_closure_fails_at_a_seat`

mod commands;
mod messages;
pub(crate) mod outside;
mod seats;
mod services;
pub(crate) mod texts;

use std::test::Fail;

// All cases, one after the other.
#[test]
fn hostile_use(rt: HostRuntime) -> Result<(), Fail> {
    let alloc = rt.alloc();
    commands::the_disk_or_the_console_fails(&rt, alloc)?;
    commands::a_session_fails(&rt, alloc)?;
    commands::each_write_of_a_session_fails(&rt, alloc)?;
    commands::each_read_of_a_publication_fails(&rt, alloc)?;
    messages::links_fail_or_end(&rt, alloc)?;
    services::a_client_says_nothing_and_another_fails(&rt, alloc)?;
    services::doors_or_the_console_fail(&rt, alloc)?;
    services::an_address_has_256_bytes(&rt, alloc)?;
    seats::each_read_of_a_publication_fails_at_a_seat(&rt, alloc)?;
    seats::the_write_of_a_closure_fails_at_a_seat(&rt, alloc)?;
    seats::a_folder_is_published_in_the_middle_of_a_reply(&rt, alloc)
}
