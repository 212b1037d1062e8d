//! Applications of files.

use rd_app::app::Program;
use rd_script::error::AppError;
use rd_script::file::read_app;
use std::alloc::Global;

/// What runs of a file's text. What `read_app` promises of it is not asked for here.
pub fn read(alloc: Global, text: &str) -> Result<Program, AppError> {
    let (program, _names) = read_app(alloc, text.as_bytes())?.split();
    Ok(program)
}
