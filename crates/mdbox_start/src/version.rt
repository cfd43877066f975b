// Which proof stands behind the program.

/// The logic by which the program was proved, as `rt version` names it; the gate compares both. Kits of one logic prove the same. A
/// program that is made without a proof (`tools/try`) has another text here.
const PROOF: &str = "proved by rattle, logic dac8208d650f15bf";

/// Which proof stands behind the program.
pub(crate) fn proof() -> &'static str {
    PROOF
}
