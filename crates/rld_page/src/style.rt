//! The style sheet of the page, in light and in dark, for narrow and for wide windows.

/// The style sheet. Its colours have names: `login`, `limit` and `reject` are those of the three
/// parts of a minute's bar.
pub(crate) const STYLE: &str = "\
:root{color-scheme:light dark;--paper:#f7f7f4;--card:#fff;--ink:#1d1f21;--soft:#62666d;--line:#e3e3dd;\
--login:#2f6db3;--limit:#d9930d;--reject:#b9432f;--held:#23806c;--good:#1e7b4f;--bad:#b3261e}\
@media(prefers-color-scheme:dark){:root{--paper:#111315;--card:#181a1d;--ink:#e8e8e5;--soft:#9a9ea6;\
--line:#2a2d32;--login:#6aa5e3;--limit:#e2ac45;--reject:#e37d69;--held:#56b9a3;--good:#62c493;--bad:#f08a7f}}\
*{box-sizing:border-box}\
body{margin:0;background:var(--paper);color:var(--ink);font:15px/1.45 system-ui,-apple-system,'Segoe UI',\
Roboto,'Helvetica Neue',Arial,sans-serif;font-variant-numeric:tabular-nums}\
header,main,footer{max-width:1240px;margin:0 auto;padding:0 20px}\
header{display:flex;flex-wrap:wrap;align-items:baseline;gap:4px 14px;padding-top:28px;padding-bottom:18px}\
h1{font-size:20px;font-weight:650;letter-spacing:-.01em;margin:0}\
h2{font-size:15px;font-weight:600;margin:0}\
p{margin:0}\
.soft,footer{color:var(--soft)}\
.state{display:inline-flex;align-items:center;gap:7px;font-weight:550}\
.state::before{content:'';width:9px;height:9px;border-radius:50%;background:currentColor}\
.good{color:var(--good)}.bad{color:var(--bad)}\
.since{color:var(--soft);margin-left:auto}\
main{display:grid;grid-template-columns:repeat(12,minmax(0,1fr));gap:16px}\
section{background:var(--card);border:1px solid var(--line);border-radius:10px;padding:18px 20px;\
grid-column:1/-1;min-width:0}\
.numbers{display:grid;grid-template-columns:repeat(4,minmax(0,1fr));padding:0;overflow:hidden}\
.numbers div{padding:18px 20px;border-left:1px solid var(--line)}.numbers div:first-child{border-left:0}\
.numbers dl{display:contents}\
.numbers p{grid-column:1/-1;padding:10px 20px;border-top:1px solid var(--line);font-size:13px}\
dt{color:var(--soft);font-size:13px}\
dd{margin:2px 0 0;font-size:32px;font-weight:600;line-height:1.15;letter-spacing:-.02em}\
dd small{font-size:14px;font-weight:400;letter-spacing:0;color:var(--soft);white-space:nowrap}\
.top{display:flex;flex-wrap:wrap;justify-content:space-between;gap:2px 16px;margin-bottom:12px}\
.key{display:flex;flex-wrap:wrap;gap:2px 14px;color:var(--soft);font-size:13px}\
.key span::before{content:'';display:inline-block;width:9px;height:9px;border-radius:2px;margin-right:6px;\
background:var(--c)}\
svg{display:block;width:100%;height:150px;overflow:visible}\
.axis{display:flex;justify-content:space-between;color:var(--soft);font-size:12px;margin-top:6px}\
.rule{stroke:var(--line);stroke-width:1;vector-effect:non-scaling-stroke}\
.curve{fill:none;stroke:var(--held);stroke-width:2;stroke-linejoin:round;vector-effect:non-scaling-stroke}\
.area{fill:var(--held);opacity:.13}.touch{fill:transparent}\
g:hover .touch{fill:var(--ink);opacity:.07}\
.login{fill:var(--login)}.limit{fill:var(--limit)}.reject{fill:var(--reject)}\
.half .top{flex-direction:column}\
.wide{overflow-x:auto;margin:0 -20px -6px;padding:0 20px}\
table{border-collapse:collapse;width:100%;font-size:14px}\
caption{text-align:left;color:var(--soft);font-size:13px;padding-bottom:6px}\
th{font-weight:500;font-size:12px;color:var(--soft);text-align:left;padding:0 14px 6px 0;white-space:nowrap}\
td{border-top:1px solid var(--line);padding:6px 14px 6px 0;vertical-align:top}\
td.name{overflow-wrap:anywhere;min-width:8em}\
tr:target td{background:var(--line)}\
.n{text-align:right;white-space:nowrap}th:last-child,td:last-child{padding-right:0}\
.share{width:24%;vertical-align:middle}\
.bar{display:block;height:8px;border-radius:4px;background:var(--line);overflow:hidden;min-width:60px}\
.bar i{display:block;height:100%;border-radius:4px;background:var(--held)}\
.numbers .bar{margin-top:10px}\
.full .bar i{background:var(--limit)}\
code{font:12.5px ui-monospace,SFMono-Regular,Menlo,Consolas,monospace;color:var(--soft)}\
time{white-space:nowrap}\
tfoot td{font-weight:600}\
table+table{margin-top:16px}\
footer{padding-top:18px;padding-bottom:32px;font-size:13px}\
a{color:inherit}\
@media(min-width:721px){.lately td.name{min-width:6em}}\
@media(min-width:960px){.half{grid-column:span 6}.most{grid-column:span 7}.rest{grid-column:span 5}\
.lately td:nth-child(4){white-space:nowrap}}\
@media(max-width:720px){header,main,footer{padding-left:12px;padding-right:12px}main{gap:12px}\
.since{margin-left:0;width:100%}section{padding:16px}.wide{margin:0 -16px -4px;padding:0 16px}\
.numbers{grid-template-columns:repeat(2,minmax(0,1fr));padding:0}.numbers div{padding:14px 16px}\
.numbers p{padding:10px 16px}\
.numbers div:nth-child(odd){border-left:0}.numbers div:nth-child(n+3){border-top:1px solid var(--line)}\
dd{font-size:26px}dd small{display:block}svg{height:120px}.more{display:none}\
.lately thead{position:absolute;width:1px;height:1px;overflow:hidden;clip-path:inset(50%)}\
.lately tr{display:grid;grid-template:'name time' 'cause from' 'nas nas'/1fr auto;padding:8px 0;border-top:1px solid var(--line)}\
.lately td{border:0;padding:1px 0;color:var(--soft)}.lately td:nth-child(1){grid-area:time}\
.lately td:nth-child(2){grid-area:name;color:var(--ink);font-weight:550}.lately td:nth-child(4){grid-area:cause;color:var(--ink)}\
.lately td:nth-child(5){grid-area:from}.lately td:nth-child(6){grid-area:nas}.lately tr:first-child{border-top:0}}\
";
