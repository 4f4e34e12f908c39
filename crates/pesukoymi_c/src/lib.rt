// The archive: the boundary's functions under C's calling convention, one for each name that C links. Each calls the one of its name in `pesukoymi` and
// states its clauses again.
#![tactic(auto)]

ghost use Rattle.rules.specs.Answers.{check as checked, order as ordered, expand as expanded};
ghost use Rattle.pesukoymi.specs.Boundary.{Called};

// Check, for a host.
#[unsafe(no_mangle)]
pub extern "C" fn pesukoymi_check(image: &[u8], out: &mut [u8], answer: &mut [u8])
    ensures { Called (checked image.now out.old) out.old answer.old out.new answer.new }
{
    pesukoymi::pesukoymi_check(image, out, answer);
}

// Order, for a host.
#[unsafe(no_mangle)]
pub extern "C" fn pesukoymi_order(image: &[u8], out: &mut [u8], answer: &mut [u8])
    ensures { Called (ordered image.now out.old) out.old answer.old out.new answer.new }
{
    pesukoymi::pesukoymi_order(image, out, answer);
}

// Expand, for a host.
#[unsafe(no_mangle)]
pub extern "C" fn pesukoymi_expand(image: &[u8], out: &mut [u8], answer: &mut [u8])
    ensures { Called (expanded image.now out.old) out.old answer.old out.new answer.new }
{
    pesukoymi::pesukoymi_expand(image, out, answer);
}
