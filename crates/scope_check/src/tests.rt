use super::*;

mod cases;
mod contexts;
mod programs;
mod scopes;
