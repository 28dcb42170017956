// Tokens that are no plan, in words.
use crate::candidates::Front;
use crate::cut::Cut;
use crate::hints::push_hint;
use crate::report::Words;
use crate::wanted::Wanted;
use px_pen::Pen;
use std::alloc::Global;

/// Says why a plan can't go on at a cut behind a front, or that it ends too early.
pub fn cut_short(alloc: Global, cut: &Cut<'_>, front: &mut Front, words: &mut Words) {
    match cut.place.spelled() {
        "" => words
            .message
            .push("the plan ends here, and something is missing"),
        found => words.message.fill("`{}` can't stand here", found),
    }
    let wanted = Wanted::behind(alloc, front);
    if !push_hint(alloc, cut, &wanted, front, &mut words.help) {
        push_wanted(cut, &wanted, &mut words.help);
    }
    front.end_tries(&mut words.help);
}

fn push_wanted(cut: &Cut<'_>, wanted: &Wanted, out: &mut Pen) {
    if wanted.is_complete {
        return out.push("the plan is complete before it: leave the rest away");
    }
    if let Some(open) = cut.open {
        out.fill("the `{}` of line ", open.spelled());
        out.fill_each("{} isn't closed; ", &[open.line]);
    }
    if wanted.semicolon && cut.before.line < cut.place.line {
        let line = cut.before.line;
        out.fill_each("a `;` may be missing at the end of line {}; ", &[line]);
    }
    out.push("what may stand here is ");
    wanted.push_phrase(out);
}
