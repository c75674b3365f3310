//! The program's name and its version.

/// The output of `--version`: the name and the version, and the line of `rt version` for the
/// toolchain that the program is proved with.
pub const VERSION: &str = "lbench 0.1.0\nrattle-kit-13f logic dac8208d650f15bf\n";
