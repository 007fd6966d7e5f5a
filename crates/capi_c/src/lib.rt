// The exported functions of the static library, under their names for C: each calls the function of `capi` of its name, and promises the same.
#![tactic(auto)]

ghost use Rattle.text_lexical.specs.Names.{present};
ghost use Rattle.capi.specs.Promised.{AssembleCall, OpenCall, ListCall};

use image_labels::label::Label;

// The image of a source, and its labels: words, labels, limb_bits, data_limbs, addr_limbs, the Rust's line, the line, the needed length.
#[unsafe(no_mangle)]
pub extern "C" fn zkasm_assemble(
    source: &[u8],
    table: &mut [Label],
    image: &mut [u8],
    answer: &mut [u64; 8],
) -> u32
    ensures { AssembleCall present source.now table.old image.old table.new image.new answer.new result }
{
    capi::zkasm_assemble(source, table, image, answer)
}

// The header of an image: its fields in their order, and where the code ends.
#[unsafe(no_mangle)]
pub extern "C" fn zkasm_open(image: &[u8], answer: &mut [u64; 12]) -> u32
    ensures { OpenCall image.now answer.new result }
{
    capi::zkasm_open(image, answer)
}

// The text of an image: its length, the index of a faulty word, the needed length.
#[unsafe(no_mangle)]
pub extern "C" fn zkasm_list(image: &[u8], text: &mut [u8], answer: &mut [u64; 3]) -> u32
    ensures { ListCall image.now text.old text.new answer.new result }
{
    capi::zkasm_list(image, text, answer)
}
