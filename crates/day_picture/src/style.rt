//! The styles of charts: colours by day and by night and on paper, and shapes.

/// The colours.
pub const PALETTE: &[u8] =
    b":root{color-scheme:light dark;--bg:#fff;--ink:#1c2126;--soft:#5a6570;--line:#dde2e7;--panel:#f5f7f9;--link:#0b57a4;--good:#0a6b55;--goodbg:#e8f4f0;--bad:#a8330a;--badbg:#fcefe8;--band:#c3def3;--edge:#3d87c0;--trade:#c4500b;--buy:#0c6e58;--sell:#cb7fb8;--none:#e9ebee}@media (prefers-color-scheme:dark){:root{--bg:#15191d;--ink:#e4e8ec;--soft:#9ba6b1;--line:#2f373f;--panel:#1c2227;--link:#79b8f3;--good:#5fcfae;--goodbg:#16302a;--bad:#ff9d73;--badbg:#3a2117;--band:#1f4a6b;--edge:#61abe0;--trade:#f79a4e;--buy:#27a07c;--sell:#e9b2d9;--none:#262c32}}@media print{:root{color-scheme:light;--bg:#fff;--ink:#000;--soft:#444;--line:#bbb;--panel:#fff;--link:#000;--good:#0a6b55;--goodbg:#fff;--bad:#a8330a;--badbg:#fff;--band:#c3def3;--edge:#3d87c0;--trade:#c4500b;--buy:#0c6e58;--sell:#cb7fb8;--none:#e9ebee}}";

/// The shapes of a chart, by class.
pub const CHART: &[u8] =
    b".chart{margin:.4rem 0 1rem;padding-right:5rem;font-size:12px}.chart svg{display:block;overflow:visible}.chart text{fill:var(--soft)}.chart .c{text-anchor:middle}.chart .z{text-anchor:end}.chart .r,.chart .a{text-anchor:start}.chart .n{text-anchor:start;font-style:italic}.chart .g{stroke:var(--line)}.chart .b{stroke:var(--soft)}.chart line{shape-rendering:crispEdges}.chart .q{fill:var(--band)}.chart .w{fill:none;stroke:var(--edge);stroke-width:1;vector-effect:non-scaling-stroke}.chart .t{fill:var(--trade)}.chart circle.t{stroke:var(--bg);stroke-width:1}.chart .u{fill:var(--buy)}.chart .s{fill:var(--sell)}.chart .e{fill:var(--none)}";

/// The font of a chart that is a file of its own.
pub const FONT: &[u8] =
    b"svg{font:12px system-ui,-apple-system,\"Segoe UI\",Roboto,\"Liberation Sans\",sans-serif;font-variant-numeric:tabular-nums}";
