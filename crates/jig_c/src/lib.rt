// The call of `jig` under its exported name, in the C convention. It adds nothing and asks nothing: the clause is that of `jig`.
#![tactic(auto)]

ghost use Rattle.std.specs.Prelude.{length};
ghost use Rattle.layout.specs.Code.Calls.{buffers_now, lengths};
ghost use Rattle.jig.specs.Called.{Called};

#[unsafe(no_mangle)]
pub extern "C" fn kodhlace_assemble(
    text: &[u8],
    base: u32,
    words: &mut [u32],
    data_bytes: &mut [u8],
    labels: &mut [u8],
    equates: &mut [u8],
    items: &mut [u8],
    counts: &mut [u64],
) -> u32
    ensures { Called text.now base
        (lengths (buffers_now words.old data_bytes.old labels.old equates.old items.old))
        (length counts.old) result counts.new
        (buffers_now words.new data_bytes.new labels.new equates.new items.new) }
{
    jig::kodhlace_assemble(
        text, base, words, data_bytes, labels, equates, items, counts,
    )
}
