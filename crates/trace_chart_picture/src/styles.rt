//! The style and the legend.
ghost use Rattle.std.specs.Prelude.{◌≡◌, ◌++◌, OnOk};
ghost use Rattle.trace_chart_picture.specs.Styles.{rules_text, heads_text, legend_text, style_text};

use crate::pieces::put_three;
use plan_base::{Bytes, NoMemory};

/// The rules of the style: colours that people with a colour weakness can tell apart.
#[tactic(auto, unfolding(crate::specs::Styles::rules_text))]
fn rules() -> &'static [u8]
    ensures { result.now ≡ rules_text }
{
    b"<style>\n\
text{font:11px monospace;fill:#222;stroke:#fff;stroke-width:3px;paint-order:stroke}\n\
path{fill:none;stroke:#222;stroke-width:1.6}\n\
path.h{stroke:#bbb;stroke-width:1}\n\
text.h{font-weight:bold;text-anchor:middle}\n\
text.e{fill:#777;text-anchor:end}\n\
path.e{stroke:#eee;stroke-width:1}\n\
path.p{stroke:#0072b2;marker-end:url(#p)}\n\
path.a{stroke:#bbb;stroke-width:1;marker-end:url(#a)}\n\
path.l{stroke:#d55e00;stroke-dasharray:6 4}\n\
path.o{stroke:#0072b2;stroke-dasharray:1 3}\n\
path.f{stroke:#cc79a7;stroke-width:2.2;marker-end:url(#f)}\n\
path.c{stroke:#d55e00;stroke-width:2.4}\n\
path.v{fill:#009e73;stroke:none}\n\
path.x{fill:#e69f00;stroke-width:1}\n\
path.s{fill:#222;stroke:none}\n\
path.d{fill:#fff}\n\
path.i{fill:#0072b2;stroke:none}\n\
path.g{fill:#cc79a7;stroke:none}\n\
marker path{stroke:none}\n\
#p path{fill:#0072b2}\n\
#a path{fill:#bbb}\n\
#f path{fill:#cc79a7}\n\
text.k{fill:#0072b2;font-size:9px}\n\
text.c{fill:#b34a00}\n\
text.g{fill:#a0457a}\n\
text.n{font-weight:bold}\n\
text.t{fill:#777}\n\
text.r{text-anchor:end}\n\
</style>\n"
}

/// The heads of arrows.
#[tactic(auto, unfolding(crate::specs::Styles::heads_text))]
fn heads() -> &'static [u8]
    ensures { result.now ≡ heads_text }
{
    b"<defs>\n\
<marker id='p' viewBox='0 0 8 8' refX='8' refY='4' markerWidth='8' markerHeight='8' markerUnits='userSpaceOnUse' orient='auto'><path d='M0 0l8 4l-8 4z'/></marker>\n\
<marker id='a' viewBox='0 0 8 8' refX='8' refY='4' markerWidth='7' markerHeight='7' markerUnits='userSpaceOnUse' orient='auto'><path d='M0 0l8 4l-8 4z'/></marker>\n\
<marker id='f' viewBox='0 0 8 8' refX='8' refY='4' markerWidth='9' markerHeight='9' markerUnits='userSpaceOnUse' orient='auto'><path d='M0 0l8 4l-8 4z'/></marker>\n\
</defs>\n"
}

/// The ground, and what the lines and signs mean.
#[tactic(auto, unfolding(crate::specs::Styles::legend_text))]
fn legend() -> &'static [u8]
    ensures { result.now ≡ legend_text }
{
    b"<rect width='100%' height='100%' fill='#fff'/>\n\
<path class='p' d='M12 18h30'/><text x='48' y='22'>packet</text>\n\
<path class='a' d='M104 18h30'/><text x='140' y='22'>advert</text>\n\
<path class='l' d='M196 18h26'/><path class='c' d='M222 18m-5 -5l10 10m0 -10l-10 10'/><text x='234' y='22'>lost</text>\n\
<path class='o' d='M276 18h30'/><text x='312' y='22'>on the wire</text>\n\
<path class='f' d='M398 18h30'/><text x='434' y='22'>forged</text>\n\
<path class='v' d='M494 18m-4 0a4 4 0 1 0 8 0a4 4 0 1 0 -8 0'/><text x='504' y='22'>value</text>\n\
<path class='x' d='M554 18m-5 0l5 -5l5 5l-5 5z'/><text x='565' y='22'>exception</text>\n\
<path class='s' d='M642 18m-4 -4h8v8h-8z'/><text x='652' y='22'>work spent</text>\n\
<path class='d' d='M736 18m-4 -4h8v8h-8zl8 8m0 -8l-8 8'/><text x='746' y='22'>drop</text>\n"
}

/// Appends what each picture begins with.
#[tactic(auto, unfolding(crate::specs::Styles::style_text))]
pub(crate) fn put_style(out: &mut Bytes) -> Result<(), NoMemory>
    ensures { OnOk result (out.new ≡ out.old ++ style_text) }
{
    put_three(out, rules(), heads(), legend())
}
