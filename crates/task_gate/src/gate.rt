//! Gates.

use std::sync::Wait;

/// What is called around each request of a task. It may wait, as for another task.
pub trait Gate {
    /// Before the task's request of this number, counted from 0, is submitted the first time.
    fn before<R: Wait>(&self, rt: &R, task: u32, number: u32);

    /// Behind the collecting of the outcome of the task's command of this number.
    fn answered<R: Wait>(&self, rt: &R, task: u32, number: u32);
}

/// A gate that stands open: its calls do nothing.
#[derive(Clone, Copy, Debug, PartialEq, Eq)]
pub struct OpenGate;

impl Gate for OpenGate {
    fn before<R: Wait>(&self, _rt: &R, _task: u32, _number: u32) {}

    fn answered<R: Wait>(&self, _rt: &R, _task: u32, _number: u32) {}
}
