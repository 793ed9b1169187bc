//! The front and the end of the page, and its style.

use crate::html::Html;
use crate::shown::Shown;

const STYLE: &str =
    ":root{color-scheme:light dark;--paper:#fff;--ink:#1f252b;--quiet:#5d6771;--line:#d3d9df;--free:#f4f6f8;--main:#2563a8;--handler:#b8541a;
--static:#59636e}
@media (prefers-color-scheme:dark){
:root{--paper:#14171a;--ink:#e3e6e9;--quiet:#98a2ac;--line:#3a4148;--free:#1d2125;--main:#79b0ec;--handler:#eda16b;--static:#a3adb7}}
*{box-sizing:border-box;print-color-adjust:exact;-webkit-print-color-adjust:exact}
body{margin:0 auto;padding:2rem 1.5rem 3rem;max-width:76rem;background:var(--paper);color:var(--ink);font:15px/1.5 system-ui,sans-serif}
h1{font-size:1.6rem;margin:0}h2{font-size:1.15rem;margin:2.2rem 0 .4rem;border-bottom:1px solid var(--line);padding-bottom:.2rem}
h3{display:inline-block;font-size:.95rem;margin:.9rem .6rem 0 0}h3+p{display:inline-block;margin:0}
h4{font-size:.9rem;margin:.2rem 0;color:var(--c)}
p{margin:.3rem 0}.quiet,small,footer{color:var(--quiet)}small{font-weight:400;font-size:.85em}
.main{--c:var(--main)}.handler{--c:var(--handler)}.static,.const,.start{--c:var(--static)}.const{border-style:dashed!important}
i{font-style:normal}
.bank i,.page i,.stack i,.mark,.legend i{background:color-mix(in srgb,var(--c) 18%,var(--paper));border:1px solid var(--c)}
.mark,.legend i{display:inline-block;width:.85em;height:.85em;margin-right:.45em;border-radius:2px;vertical-align:-.08em}
.legend span{display:inline-block;margin:.4rem 1.3rem 0 0}.common{--c:var(--line);color:var(--quiet)}.free{--c:var(--line)}
i.free{background:var(--free)!important}
.bank{display:grid;grid-template-columns:repeat(112,minmax(0,1fr));grid-auto-flow:dense;grid-auto-rows:1.55rem;row-gap:2px;
border:1px solid var(--line);padding-bottom:2px;background:var(--free)}
.bank b{font-size:.68rem;font-weight:400;color:var(--quiet);border-left:1px solid var(--line);padding-left:3px;grid-row:1;background:var(--paper)}
.bank i,.page i{overflow:hidden;white-space:nowrap;text-overflow:ellipsis;font-size:.74rem;line-height:1.4rem;padding-left:2px;border-radius:2px}
.bank i{grid-row-start:auto}.page{position:relative;height:1.9rem;border:1px solid var(--line);background:var(--free)}
.page i{position:absolute;top:2px;bottom:2px;left:calc(var(--at)/2048*100%);width:calc(var(--of)/2048*100%);background:none;line-height:1.5rem}
.page u{position:absolute;top:0;bottom:0;left:0;width:calc(var(--used)/var(--of)*100%);
background:color-mix(in srgb,var(--c) 30%,transparent);text-decoration:none}
.stack{display:flex;gap:3px;margin:.6rem 0}.stack i{width:2.4rem;height:1.3rem;border-radius:2px}
ul{list-style:none;margin:.6rem 0;padding:0}
li{margin-left:calc(var(--inside)*1.6rem);border-left:3px solid var(--c);padding:.08rem 0 .08rem .6rem}li b{color:var(--c);font-weight:600}
table{border-collapse:collapse;margin:.8rem 0;font-variant-numeric:tabular-nums}
th{text-align:left;font-weight:600;font-size:.85rem;color:var(--quiet)}
td,th{padding:.16rem 1.4rem .16rem 0;border-bottom:1px solid var(--line)}.number{text-align:right}
.part{display:grid;grid-template-columns:minmax(0,11fr) minmax(0,9fr);gap:1.5rem;border-top:1px solid var(--line);padding:.5rem 0}
.plain{border-top:0}
pre,code{font:12.5px/1.45 ui-monospace,monospace}pre{margin:0;white-space:pre-wrap;tab-size:4}
.source span{display:block;padding-left:4em;text-indent:-4em}
.source b{display:inline-block;width:4em;padding-right:1em;text-indent:0;text-align:right;font-weight:400;color:var(--quiet);user-select:none}
em{font-style:normal;color:var(--quiet)}s{text-decoration:none}footer{margin-top:2.5rem;font-size:.85rem}
@media print{
:root{color-scheme:light;--paper:#fff;--ink:#000;--quiet:#444;--line:#bbb;--free:#fff;--main:#2563a8;--handler:#b8541a;--static:#59636e}
section{break-inside:auto}h2,h3,h4{break-after:avoid}pre{font-size:9px}body{padding:0}.bank,.page,tr,li{break-inside:avoid}}
@media screen and (max-width:48rem){.part{grid-template-columns:minmax(0,1fr)}}
";

fn put_legend(out: &mut Html) {
    out.put("<p class=\"legend\"><span><i class=\"main\"></i>main and what it calls</span>");
    out.put("<span><i class=\"handler\"></i>the handler and what it calls</span>");
    out.put(
        "<span><i class=\"static\"></i>static object</span><span><i class=\"const\"></i>const object</span>",
    );
    out.put("<span><i class=\"free\"></i>free</span></p>\n");
}

/// The page up to its first section: its name, what the program takes of the chip, and what the colours mean.
pub fn put_front(out: &mut Html, shown: &Shown<'_>) {
    out.put(
        "<!DOCTYPE html>\n<html lang=\"en\"><head><meta charset=\"utf-8\">\n<meta name=\"viewport\" content=\"width=device-width\">\n<title>Memory of ",
    );
    out.name(shown.name.as_bytes());
    out.put("</title>\n<style>\n");
    out.put(STYLE);
    out.put("</style></head>\n<body>\n<header><h1>");
    out.name(shown.name.as_bytes());
    out.counted("</h1>\n<p>On the PIC16F877A: ", shown.placed.ram as u64);
    out.counted(" of 352 bytes of data memory, ", shown.all_words());
    out.counted(
        " of 8192 words of program memory, ",
        shown.copies.depth as u64,
    );
    out.put(" of 8 words of the return stack. Addresses are hexadecimal, sizes decimal.</p>\n");
    put_legend(out);
    out.put("</header>\n");
}

/// The end of the page.
pub fn put_end(out: &mut Html) {
    out.put("<footer>By memory_page, from the same calls that <code>picc build</code> makes. ");
    out.put(
        "What the page says isn't proved; what the build promises is.</footer>\n</body></html>\n",
    );
}
