use crate::Job;
use std::collections::LinkedList;

// What a pass of the queue knows. No value of it is made.
pub(crate) struct Hand {
    // Whether it is the giver's, or has the giver's joined in.
    gives: bool,
    // All jobs pushed so far, where it gives.
    pushed: LinkedList<Job>,
    // How many parts the queue was opened in, where it gives: one for the giver and one for each taker.
    opened: u64,
    // How many of these parts are joined in it.
    parts: u64,
    // The jobs that its parts have popped, by ticket.
    popped: LinkedList<Job>,
}
