//! What the words of a command line ask for, what stands in its place, the exit statuses, and the version.
#![tactic(auto)]

mod release;
mod statuses;
mod tasks;

pub use release::version;
pub use statuses::{DEVICE, DONE, NOT_ACCEPTED, REFUSED, WORDS_REFUSED};
pub use tasks::{
    Certificate, CertificateTask, Certified, CircuitTask, Given, Language, ListOrder, ModelTask,
    Order, Request, STANDARD_INPUT, STANDARD_OUTPUT, Stop, Task, TextTask,
};
