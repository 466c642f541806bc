use super::*;

mod cases;
mod contexts;
mod functions;
mod names;
mod statements;
mod strict_code;
mod texts;
