//! The style of the page.

/// One text, in the head of the page.
pub(crate) const STYLE: &[u8] = b":root{color-scheme:light dark;
--paper:#fffefb;--ink:#1c1b18;--soft:#625e56;--hair:#e7e3da;--rule:#bdb7aa;--fill:#efece4;--bar:#948e82;--accent:#a6301b;--tint:#faece7;
--sans:-apple-system,\"Segoe UI\",Roboto,\"Helvetica Neue\",Arial,\"Liberation Sans\",system-ui,sans-serif;
--serif:\"Iowan Old Style\",\"Palatino Linotype\",Palatino,\"Book Antiqua\",Georgia,\"Times New Roman\",\"Liberation Serif\",serif;
--mono:ui-monospace,\"SF Mono\",Menlo,Consolas,\"Liberation Mono\",\"DejaVu Sans Mono\",monospace}
@media (prefers-color-scheme:dark){:root{
--paper:#15161a;--ink:#e9e6df;--soft:#a7a298;--hair:#292b31;--rule:#55575e;--fill:#24262c;--bar:#7f8188;--accent:#ff9274;--tint:#36241f}}
*{box-sizing:border-box}
html{-webkit-text-size-adjust:100%;text-size-adjust:100%}
body{margin:0;background:var(--paper);color:var(--ink);font:14px/1.5 var(--sans)}
main,header,footer,nav{max-width:1208px;margin:0 auto;padding:0 24px}
a{color:inherit;text-decoration:underline;text-decoration-color:var(--rule);text-decoration-thickness:1px;text-underline-offset:2px}
a:hover{color:var(--accent);text-decoration-color:currentColor}
a:focus-visible,summary:focus-visible,.wide:focus-visible{outline:2px solid var(--accent);outline-offset:2px}
b{font-weight:600}
bdi{white-space:pre-wrap;overflow-wrap:anywhere}
td,tbody th{overflow-wrap:anywhere}.n,.w{overflow-wrap:normal}
.lo{display:inline-block;max-width:22ch;overflow-wrap:anywhere;white-space:normal;vertical-align:top}
small,.s{font-size:12px;color:var(--soft)}
.a{color:var(--accent)}
.q{position:absolute;width:1px;height:1px;overflow:hidden;clip-path:inset(50%);white-space:nowrap}
.w{white-space:nowrap}
code{font:11.5px/1.55 var(--mono);overflow-wrap:anywhere;white-space:pre-wrap}
h1,h2,h3,p,dl,dd,figure{margin:0}
/* head */
header{padding-top:28px}
.mast{border-top:3px solid var(--ink);padding-top:3px}
.mast>div{border-top:1px solid var(--ink);padding:14px 0 12px;display:flex;flex-wrap:wrap;gap:4px 28px;align-items:baseline;justify-content:space-between}
h1,h3,.asked dd{overflow-wrap:anywhere}
h1{font:600 34px/1.15 var(--serif)}
h1 span{font-weight:400}
.mast p{color:var(--soft)}
.facts{display:grid;grid-template-columns:repeat(4,1fr);gap:0 24px;border-top:1px solid var(--rule);padding:10px 0 4px}
.facts div{padding:2px 0 7px}
.facts .l{grid-column:1/-1;padding:1px 0;display:flex;flex-wrap:wrap;gap:0 12px;align-items:baseline}
.facts .l dt{flex:0 0 164px}
.facts .l dd{flex:1 1 auto}
dt{font-size:12px;color:var(--soft)}
dd{font-variant-numeric:tabular-nums lining-nums}
.dig i{color:inherit;margin-right:.5em;white-space:nowrap}
nav{padding-top:8px;padding-bottom:8px}
nav ol{list-style:none;margin:0;padding:7px 0;border-top:1px solid var(--rule);border-bottom:1px solid var(--rule);display:flex;flex-wrap:wrap;gap:2px 20px;font-size:13px}
nav a{text-decoration:none}
/* figures */
.six{display:grid;grid-template-columns:repeat(6,1fr);margin:20px 0 6px}
.six div{border-left:1px solid var(--rule);padding:0 12px 2px}
.six div:first-child{border-left:0;padding-left:0}
.six dd{font:400 36px/1.1 var(--serif);font-variant-numeric:lining-nums tabular-nums}
.six dd a{text-decoration:none}
.six p{font-size:12px;line-height:1.4;color:var(--soft);font-variant-numeric:tabular-nums lining-nums}
/* sections */
section{padding-top:34px}
h2{font:600 22px/1.25 var(--serif);border-top:1px solid var(--ink);padding-top:8px}
h2 small{font:400 13px var(--sans);margin-left:10px}
h3{font:600 16px/1.3 var(--serif);margin-top:22px}
h3 small{font:400 12.5px var(--sans);margin-left:8px}
.lead{color:var(--soft);max-width:82ch;margin:2px 0 10px}
.none{padding:6px 0}
/* tables */
table{border-collapse:collapse;width:100%;font-size:13px;line-height:1.4;font-variant-numeric:tabular-nums lining-nums}
caption{text-align:left;color:var(--soft);font-size:12px;padding:3px 0 6px}
i{font-style:normal;color:var(--soft)}
th{font-weight:400;text-align:left;vertical-align:bottom}
thead th{font-size:11.5px;line-height:1.3;color:var(--soft);border-bottom:1px solid var(--ink);padding:3px 14px 3px 0}
thead .g th{border-bottom:0;padding-bottom:0;color:var(--ink)}
thead .g th[colspan]{border-bottom:1px solid var(--rule)}
td,tbody th{padding:2.5px 14px 2.5px 0;vertical-align:baseline}
tr>:last-child{padding-right:0}
tbody tr:nth-child(5n)>*{border-bottom:1px solid var(--hair)}
.lines tbody tr>*{border-bottom:1px solid var(--hair)}
tbody tr:last-child>*{border-bottom:1px solid var(--rule)!important}
tfoot td,tfoot th{padding-top:4px;border-bottom:1px solid var(--ink)}
.n{text-align:right;white-space:nowrap}
.c{text-align:center}
.v{border-left:1px solid var(--hair);padding-left:12px}
tr:target>*,.rfq:has(>:target)>summary,.short:target{background:var(--tint)}
.wide{overflow-x:auto;background:linear-gradient(var(--paper),var(--paper)) right/24px 100% no-repeat local,linear-gradient(to left,var(--rule),transparent) right/16px 100% no-repeat scroll}
.wide th:first-child{position:sticky;left:0;background:var(--paper)}
.i{width:10px;height:10px;overflow:visible;vertical-align:-1px;margin-right:4px}
.k{fill:var(--ink)}.ka{fill:var(--accent)}
/* folding */
details>summary{cursor:pointer;list-style-position:outside}
details.fold>summary,p.fold{font-size:13px;padding:5px 0;color:var(--soft);font-variant-numeric:tabular-nums lining-nums}
details.fold>summary b,p.fold b{color:var(--ink)}
/* charts */
svg text{font:11px var(--sans);fill:var(--soft);font-variant-numeric:tabular-nums lining-nums}
.inst{break-inside:avoid}
.plot{display:grid;grid-template-columns:84px minmax(0,1fr);padding:6px 10px 0 0}
.plot svg.x,.plot svg.y{display:block;width:100%;overflow:visible}
.gl{stroke:var(--hair);stroke-width:1;shape-rendering:crispEdges}
.ax{stroke:var(--ink);stroke-width:1;shape-rendering:crispEdges}
.bid,.off,.range{fill:none;stroke:var(--ink);stroke-width:1.2;vector-effect:non-scaling-stroke}
.bid,.off{stroke-linecap:square}
.off{stroke-dasharray:2 3}
.range{stroke:var(--bar);stroke-width:2}
.dot{fill:var(--ink);stroke:var(--paper);stroke-width:1}
.dia{fill:var(--accent);stroke:var(--paper);stroke-width:1}
.vb{fill:var(--bar)}.va{fill:var(--accent)}
a:hover .dot,a:hover .dia{stroke:var(--accent);stroke-width:3}
.lad{width:auto;min-width:400px;margin:4px 0 12px}
/* requests */
.rfq{border-top:1px solid var(--rule);padding:7px 0 3px;break-inside:avoid}
.rfq[open]{padding-bottom:16px}
.rfq>summary,.short{display:grid;grid-template-columns:46px minmax(96px,auto) minmax(0,1fr) minmax(0,330px);gap:0 12px;align-items:baseline;font-variant-numeric:tabular-nums lining-nums}
.rfq>summary::-webkit-details-marker{display:none}
.rfq>summary>b,.short>b{font:600 16px/1.3 var(--serif)}
.rfq>summary>b::before{content:\"\";display:inline-block;border:4px solid transparent;border-left-color:var(--soft);margin:0 2px 1px -10px}
.rfq[open]>summary>b::before{border-left-color:transparent;border-top-color:var(--soft);margin-bottom:-2px}
.rfq>summary .out,.short .out{text-align:right}
.out .a{color:var(--accent)}
.asked{margin:8px 0 10px;display:grid;grid-template-columns:166px minmax(0,1fr);gap:3px 12px;font-size:13px}
.asked dd{font-size:13px}
.asked .lo:has(+.lo)::after{content:','}
.asked dd>.w{margin-right:.9em}
.dim td{color:var(--soft)}
.life{width:28%;min-width:140px;padding-left:10px;padding-right:24px;vertical-align:middle}
thead .life{vertical-align:bottom}
.life svg{display:block;width:100%;height:16px;overflow:visible}
.life .bl{fill:var(--bar)}
.life .wh,.life .hit{stroke:var(--rule);stroke-width:1;vector-effect:non-scaling-stroke}
.life .hit{stroke:var(--accent);stroke-dasharray:2 2}
.dim .lo:has(+.lo)::after{content:','}
.law tbody th{font-weight:600;white-space:nowrap}
/* rows */
.rows td,.rows th{vertical-align:top;padding-top:5px;padding-bottom:5px}
.rows code{display:block;color:var(--soft);margin-top:1px}
.rows code.w{display:inline}
.rows .say{width:44%}
.rows p+p{margin-top:1px}
footer{padding-top:24px;padding-bottom:40px;color:var(--soft);font-size:12px}
footer p{border-top:1px solid var(--rule);padding-top:8px;max-width:none}
/* narrow */
@media screen and (max-width:760px){
.range{stroke-width:1}
details.fold>summary{list-style-position:inside}
main,header,footer,nav{padding-left:15px;padding-right:15px}
header{padding-top:14px}
h1{font-size:27px}
.facts{grid-template-columns:1fr 1fr}
.facts .l dt{flex-basis:100%}
.six{grid-template-columns:repeat(3,1fr);gap:14px 0}
.six dd{font-size:29px}
.six div:nth-child(4){border-left:0;padding-left:0}
.cards thead{position:absolute;width:1px;height:1px;overflow:hidden;clip-path:inset(50%)}
.cards,.cards tbody,.cards caption{display:block}
.cards tr{display:grid;gap:0 10px;padding:6px 0;border-bottom:1px solid var(--hair)}
.cards tbody tr>*{padding:0;border:0!important;width:auto;text-align:left}
.cards td:empty{display:none}
.cards td[data-l]::before{content:attr(data-l) \" \";color:var(--soft);font-size:12px}
.trades tr{grid-template-columns:46px minmax(0,1fr) auto auto;gap:0 5px}
.trades tr>*{grid-column:2/5}
.trades tr>:nth-child(1){grid-area:1/1}
.cards.trades tr>:nth-child(2){grid-area:1/3/2/5;text-align:right}
.trades tr>:nth-child(3){grid-area:1/2}
.trades tr>:nth-child(4){grid-area:2/2;white-space:normal;overflow-wrap:anywhere}
.trades tr>:nth-child(5){grid-area:2/3}
.trades tr>:nth-child(5)::after{content:\" @\"}
.trades tr>:nth-child(6){grid-area:2/4}
.trades tr>:nth-child(9){grid-area:3/1}
.trades tr>:nth-child(7),.trades tr>:nth-child(8){padding-left:0!important}
.rfq>summary,.short{grid-template-columns:46px minmax(0,1fr) auto}
.rfq>summary>:nth-child(2),.short>:nth-child(2){grid-area:1/3}
.rfq>summary>:nth-child(3),.short>:nth-child(3){grid-area:1/2}
.rfq>summary .out,.short .out{grid-area:2/2/3/4;text-align:left}
.rfq>summary>b,.short>b{padding-left:10px}
.asked{grid-template-columns:1fr}
.asked dd{margin-bottom:4px}
.plot{grid-template-columns:96px minmax(0,1fr)}
.plot svg text[text-anchor=end]{font-size:9px}
.lad{width:100%;min-width:0}
.ref tr{grid-template-columns:34px minmax(0,1fr)}
.ref tr>:nth-child(1){grid-area:1/2}
.ref tr>:nth-child(2){grid-area:1/1}
.ref tr>:nth-child(3){grid-column:2}
.quotes tr{grid-template-columns:44px minmax(0,1fr) auto auto}
.quotes tr>:nth-child(1){grid-area:1/1}
.quotes tr>:nth-child(2){grid-area:1/2}
.quotes tr>:nth-child(3){grid-area:1/3}
.quotes tr>:nth-child(4){grid-area:1/4}
.quotes tr>:nth-child(5){grid-area:2/2}
.quotes tr>:nth-child(6){grid-area:2/3/3/5}
.quotes tr>:nth-last-child(2){grid-area:3/2}
.quotes tr>:last-child{grid-area:3/3/4/5}
.quotes tr>.life{grid-area:4/1/5/5;min-width:0;padding:3px 0 2px!important}
.life svg{overflow:hidden}
.quotes .dim>*{grid-column:1/-1!important;grid-row:1!important}
.law tr{grid-template-columns:minmax(0,1fr)}
.rows tr{grid-template-columns:44px minmax(0,1fr) auto}
.rows tr>:nth-child(1){grid-area:1/1}
.rows tr>:nth-child(2){grid-area:1/3}
.rows tr>:nth-child(3){grid-area:1/2}
.rows tr>:nth-child(n+4){grid-column:2/4}
.rows tr>.say{width:auto}
}
/* paper */
@page{size:A4;margin:14mm 13mm 15mm}
@media print{
:root{color-scheme:light;--paper:#fff;--ink:#000;--soft:#4d4a44;--hair:#dcd8cf;--rule:#a9a397;--fill:#ebe8e0;--bar:#8a8478;--accent:#962a17;--tint:#fff}
body{font-size:9.5pt;background:none}
main,header,footer,nav{max-width:none;padding:0 1pt}
nav{display:none}
table{font-size:7.4pt}
td,tbody th,thead th{padding:1.6pt 6pt 1.6pt 0}
.v{padding-left:6pt}
.lead{font-size:8.4pt}
.rfq>summary,.short{font-size:8.4pt;grid-template-columns:34pt minmax(62pt,auto) minmax(0,1fr) minmax(0,215pt);gap:0 8pt}
.rfq>summary>b,.short>b{font-size:10pt}
.rfq>summary>b::before{display:none}
.asked{grid-template-columns:108pt minmax(0,1fr);margin:4pt 0 5pt}
.facts .l dt{flex-basis:104pt}
small,.s,caption,dt,thead th,.six p{font-size:7.4pt}
svg text{font-size:7pt}
.asked,.asked dd{font-size:8pt}
code{font-size:6.8pt}
section{padding-top:16pt}
h2{font-size:14pt;break-after:avoid}
h3{font-size:11pt;break-after:avoid}
.six dd{font-size:22pt}
tr,figure{break-inside:avoid}
thead{display:table-header-group}
.wide{overflow:visible;background:none}
a{text-decoration:none}
details::details-content{content-visibility:visible;height:auto}
}";
