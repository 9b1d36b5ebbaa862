//! The page, as scripts/page.py writes it.

// The policy of the page.
pub(crate) const POLICY: &str =
    "default-src 'none'; script-src 'sha256-sKaQfywH5S690zuWkW5dw0k4PsAoBhZIq/qhjQGzOd4='; style-src 'sha256-rwptB6V3j7C9RUYU45deu6HKvCkiW6lYFRte+Sm6CU4='; img-src data:; connect-src 'self'; base-uri 'none'; form-action 'none'; frame-ancestors 'none'";

// The page.
pub(crate) const PAGE: &[u8] = b"<!doctype html>\n\
    <html lang=\"en\" class=\"early\">\n\
    <head>\n\
    <meta charset=\"utf-8\">\n\
    <title>heapdbg</title>\n\
    <meta name=\"viewport\" content=\"width=device-width, initial-scale=1\">\n\
    <link rel=\"icon\" href=\"data:,\">\n\
    <style>\n\
    :root {\n\
    \x20\x20color-scheme: light dark;\n\
    \x20\x20--bg: #f6f7f9; --panel: #ffffff; --sunk: #eef0f4; --line: #dfe3ea; --line2: #c9d0db;\n\
    \x20\x20--ink: #1b2230; --ink2: #566074; --ink3: #727d90; --accent: #2f5fd0; --accent-bg: #e4ecfd;\n\
    \x20\x20--red: #c8323f; --amber: #a86a00; --green: #1f8a4c; --write: #c2188f; --free: #e8ebf0; --shade: rgba(20,30,50,.06);\n\
    \x20\x20--mono: ui-monospace, \"SF Mono\", \"JetBrains Mono\", \"DejaVu Sans Mono\", Menlo, Consolas, monospace;\n\
    }\n\
    @media (prefers-color-scheme: dark) {\n\
    \x20\x20:root {\n\
    \x20\x20\x20\x20--bg: #12151b; --panel: #191d25; --sunk: #12151b; --line: #29303c; --line2: #3a4352;\n\
    \x20\x20\x20\x20--ink: #e4e8ef; --ink2: #9aa5b6; --ink3: #7f8a9d; --accent: #7ea6ff; --accent-bg: #1f2b45;\n\
    \x20\x20\x20\x20--red: #ff7b84; --amber: #f0b44d; --green: #5fca8b; --write: #ff7fd1; --free: #232933; --shade: rgba(255,255,255,.045);\n\
    \x20\x20}\n\
    }\n\
    * { box-sizing: border-box; }\n\
    html, body { height: 100%; margin: 0; }\n\
    html.early body { display: none !important; }\n\
    body {\n\
    \x20\x20display: grid; grid-template: auto auto minmax(0, 1fr) auto / minmax(0, 1fr); background: var(--bg); color: var(--ink);\n\
    \x20\x20font: 13px/1.45 system-ui, -apple-system, \"Segoe UI\", \"DejaVu Sans\", sans-serif; overflow: hidden;\n\
    }\n\
    button, input { font: inherit; color: inherit; }\n\
    .mono, td, th, .chip, code, kbd { font-family: var(--mono); font-size: 12px; font-variant-numeric: tabular-nums; }\n\
    .dim { color: var(--ink3); } .mid { color: var(--ink2); }\n\
    :focus-visible { outline: 2px solid var(--accent); outline-offset: -1px; }\n\
    \n\
    header { display: flex; flex-wrap: wrap; align-items: center; gap: 6px 10px; padding: 9px 14px; background: var(--panel); border-bottom: 1px solid var(--line); }\n\
    header h1 { font: 600 14px/1 var(--mono); margin: 0; letter-spacing: -.02em; display: flex; align-items: center; gap: 8px; }\n\
    header h1 i { width: 14px; height: 14px; border-radius: 3px; display: grid; grid-template: 1fr 1fr / 1fr 1fr; gap: 2px; }\n\
    header h1 i b { border-radius: 1px; background: #4269d0; } header h1 i b:nth-child(2) { background: #efb118; }\n\
    header h1 i b:nth-child(3) { background: #3ca951; } header h1 i b:nth-child(4) { background: #ff725c; }\n\
    .fact { display: flex; align-items: baseline; gap: 6px; white-space: nowrap; }\n\
    .fact b { font: 600 14px/1.2 var(--mono); font-variant-numeric: tabular-nums; } .fact span { color: var(--ink3); font-size: 12px; }\n\
    .grow { flex: 1; }\n\
    .pill { display: inline-flex; align-items: center; gap: 6px; padding: 3px 9px; border-radius: 99px; background: var(--sunk); border: 1px solid var(--line); font-size: 12px; color: var(--ink2); white-space: nowrap; }\n\
    .pill::before { content: \"\"; width: 7px; height: 7px; border-radius: 50%; background: var(--ink3); }\n\
    .pill[hidden] { display: none; }\n\
    .pill.live::before { background: var(--green); } .pill.past::before { background: var(--accent); } .pill.mark::before { background: var(--amber); }\n\
    .pill.sweep::before { background: var(--red); } .pill.lost { color: var(--red); border-color: var(--red); } .pill.lost::before { background: var(--red); }\n\
    .btn { padding: 4px 9px; border: 1px solid var(--line2); border-radius: 6px; background: var(--panel); cursor: pointer; font-size: 12px; white-space: nowrap; }\n\
    .btn:hover { background: var(--shade); border-color: var(--ink3); } .btn:disabled { opacity: .45; cursor: default; }\n\
    .btn.main { background: var(--accent); border-color: var(--accent); color: #fff; } .btn.small { padding: 1px 8px; }\n\
    .btn:focus-visible { outline-offset: 1px; }\n\
    @media (prefers-color-scheme: dark) { .btn.main { color: #0d1424; } }\n\
    .seg { display: inline-flex; border: 1px solid var(--line2); border-radius: 6px; overflow: hidden; flex: none; }\n\
    .seg button { border: 0; background: none; padding: 2px 9px; font-size: 12px; cursor: pointer; color: var(--ink2); } .seg button:hover { background: var(--shade); }\n\
    .seg button + button { border-left: 1px solid var(--line2); } .seg button[aria-pressed=true] { background: var(--accent-bg); color: var(--accent); font-weight: 600; }\n\
    .seg button:disabled { opacity: .4; cursor: default; }\n\
    \n\
    #time { position: relative; background: var(--panel); border-bottom: 1px solid var(--line); padding: 6px 14px 4px; }\n\
    #time { overflow: hidden; } #time canvas { display: block; height: 108px; cursor: ew-resize; touch-action: none; }\n\
    #tip, #maptip { position: fixed; pointer-events: none; z-index: 5; background: var(--ink); color: var(--bg); padding: 5px 8px; border-radius: 5px; font: 12px/1.4 var(--mono); white-space: pre; box-shadow: 0 3px 12px rgba(0,0,0,.28); }\n\
    #tip[hidden], #maptip[hidden] { display: none; }\n\
    \n\
    main { display: grid; grid-template-columns: minmax(390px, 29%) minmax(0, 1fr) minmax(340px, 26%); min-height: 0; gap: 1px; background: var(--line); }\n\
    .col { display: flex; flex-direction: column; min-height: 0; min-width: 0; background: var(--panel); }\n\
    .panel { display: flex; flex-direction: column; min-height: 0; flex: 1 1 0; }\n\
    #mappanel { flex-grow: 1.8; } #classpanel { flex-grow: 1.1; }\n\
    .panel + .panel { border-top: 1px solid var(--line); }\n\
    .panel > h2 { display: flex; align-items: center; gap: 8px; margin: 0; padding: 8px 12px 6px; font-size: 12px; font-weight: 600; color: var(--ink2); min-height: 36px; flex: none; }\n\
    .panel > h2 small { font-weight: 400; color: var(--ink3); font-size: 12px; overflow: hidden; text-overflow: ellipsis; white-space: nowrap; min-width: 0; }\n\
    .scroll { contain: content; overflow: auto; min-height: 0; flex: 1; scrollbar-width: thin; scrollbar-color: var(--line2) transparent; }\n\
    table { border-collapse: collapse; width: 100%; }\n\
    th { position: sticky; top: 0; background: var(--panel); z-index: 1; text-align: right; font-weight: 500; color: var(--ink3); padding: 3px 6px; border-bottom: 1px solid var(--line); white-space: nowrap; font-size: 11px; }\n\
    th button { all: unset; cursor: pointer; } th button:hover { color: var(--ink); } th button:focus-visible { outline: 2px solid var(--accent); }\n\
    th[aria-sort=descending] button::after { content: \" \xe2\x86\x93\"; } th[aria-sort=ascending] button::after { content: \" \xe2\x86\x91\"; }\n\
    th[aria-sort=descending], th[aria-sort=ascending] { color: var(--ink); }\n\
    td { padding: 2.5px 6px; text-align: right; white-space: nowrap; }\n\
    th:first-child, td:first-child { text-align: left; padding-left: 12px; } th:last-child, td:last-child { padding-right: 12px; }\n\
    tbody tr { cursor: default; } tbody tr.pick { cursor: pointer; } tbody tr.pick:hover { background: var(--shade); }\n\
    tr.before td { opacity: .5; }\n\
    tr.on { background: var(--accent-bg) !important; }\n\
    th.left, td.left { text-align: left; }\n\
    td.name { max-width: 170px; overflow: hidden; text-overflow: ellipsis; }\n\
    #tops td.name { max-width: 0; width: 100%; } #inst td.name { max-width: 120px; } #inst th, #inst td { padding-left: 4px; padding-right: 4px; } #inst th:first-child, #inst td:first-child { padding-left: 12px; }\n\
    table.compared th, table.compared td { padding-left: 4px; padding-right: 4px; } table.compared td.name { max-width: 150px; padding-left: 12px; } table.compared th:first-child { padding-left: 12px; }\n\
    .sw { display: inline-block; width: 9px; height: 9px; border-radius: 2px; margin-right: 7px; vertical-align: -.5px; }\n\
    table.fields th:nth-child(-n+3), table.fields td:nth-child(-n+3) { text-align: left; } table.fields td:nth-child(3) { width: 100%; max-width: 0; overflow: hidden; text-overflow: ellipsis; }\n\
    .path.flat .n > i::after { display: none; }\n\
    .up { color: var(--red); } .down { color: var(--green); } .zero { color: var(--ink3); }\n\
    .bar { position: relative; } td.bar:last-child i { right: 12px; } .bar i { position: absolute; right: 4px; bottom: 1px; height: 2px; border-radius: 1px; opacity: .75; }\n\
    #retains { flex-basis: 100%; } #retains:empty { display: none; }\n\
    .share { display: inline-block; width: 64px; height: 6px; margin-left: 8px; border-radius: 3px; background: var(--free); overflow: hidden; } .share b { display: block; height: 100%; }\n\
    .twist { all: unset; display: inline-block; width: 16px; margin-left: -4px; text-align: center; color: var(--ink3); cursor: pointer; } .twist:hover { color: var(--ink); }\n\
    .twist::before { content: \"\xe2\x96\xb8\"; } [aria-expanded=true] > td > .twist::before { content: \"\xe2\x96\xbe\"; } .twist[hidden] { display: inline-block; visibility: hidden; }\n\
    #writes .sub { flex-wrap: wrap; align-items: center; } #writes button { font-weight: 400; } #writes .sub::before { content: \"\"; width: 8px; height: 8px; background: var(--write); transform: rotate(45deg) scale(.8); }\n\
    #writes td, #writes th, #diffs td, #diffs th { text-align: left; } #writes td:nth-last-child(-n+2), #diffs td:nth-child(n+3) { max-width: 0; width: 38%; overflow: hidden; text-overflow: ellipsis; }\n\
    a.ref { color: var(--accent); text-decoration: none; cursor: pointer; } a.ref:hover { text-decoration: underline; }\n\
    tfoot td { border-top: 1px solid var(--line); color: var(--ink2); position: sticky; bottom: 0; background: var(--panel); }\n\
    .empty { padding: 14px 12px; color: var(--ink3); line-height: 1.6; } .empty b { color: var(--ink2); font-weight: 600; } .empty[hidden] { display: none; }\n\
    \n\
    #mapbox { position: relative; flex: 1; min-height: 0; margin: 2px 12px 10px; overflow: hidden; } #map { display: block; cursor: pointer; touch-action: none; } #map.drag { cursor: grabbing; }\n\
    #legend { min-height: 26px; display: flex; gap: 4px 12px; flex-wrap: wrap; padding: 0 12px 8px; color: var(--ink2); font-size: 11.5px; }\n\
    #legend span { display: inline-flex; align-items: center; gap: 5px; } #legend i { width: 14px; height: 10px; }\n\
    #legend #ramp { width: 120px; height: 8px; border-radius: 2px; }\n\
    \n\
    .step { height: 21px; overflow: hidden; display: grid; grid-template-columns: 64px 1fr; gap: 8px; padding: 1.5px 12px; font: 12px/1.5 var(--mono); cursor: pointer; white-space: nowrap; }\n\
    .step:hover { background: var(--shade); } .step.now { background: var(--accent-bg); } .step .p { color: var(--ink3); text-align: right; } .step.later { opacity: .45; }\n\
    .ev { display: inline-block; min-width: 52px; font-weight: 600; } .ev::before { content: \"\"; display: inline-block; width: 7px; height: 7px; border-radius: 50%; margin-right: 6px; background: var(--c); }\n\
    \n\
    .head { padding: 4px 12px 10px; border-bottom: 1px solid var(--line); }\n\
    .head .t { font: 600 15px/1.3 var(--mono); overflow-wrap: anywhere; } .head .s { color: var(--ink2); margin-top: 3px; display: flex; flex-wrap: wrap; gap: 3px 12px; font-size: 12px; }\n\
    .sub { padding: 10px 12px 3px; font-size: 12px; font-weight: 600; color: var(--ink2); display: flex; gap: 6px; align-items: baseline; } .sub small { font-weight: 400; color: var(--ink3); }\n\
    .path { padding: 2px 12px 8px; font: 12px/1.4 var(--mono); }\n\
    .path .n { display: grid; grid-template-columns: 16px 1fr; } .path .n > i { position: relative; } .path .n > i::before { content: \"\"; position: absolute; left: 3px; top: 5px; width: 9px; height: 9px; border-radius: 2px; background: var(--c, var(--ink3)); }\n\
    .path .n.reg > i::before { border-radius: 50%; background: var(--ink2); } .path .n > i::after { content: \"\"; position: absolute; left: 7px; top: 16px; bottom: -5px; width: 1px; background: var(--line2); } .path .n:last-child > i::after { display: none; }\n\
    .path .e { color: var(--ink2); } .path .n > div { padding-bottom: 6px; overflow-wrap: anywhere; }\n\
    .bytes { font: 12px/1.55 var(--mono); padding: 2px 12px 8px; white-space: pre; overflow-x: auto; } .bytes .z { color: var(--ink3); } .bytes b { color: var(--ink3); font-weight: 400; }\n\
    .chip { display: inline-block; padding: 0 6px; border-radius: 4px; background: var(--sunk); border: 1px solid var(--line); color: var(--ink2); font-size: 11px; }\n\
    .chip.warn { color: var(--amber); border-color: currentColor; background: none; } .chip.ok { color: var(--green); border-color: currentColor; background: none; }\n\
    \n\
    footer { background: var(--panel); border-top: 1px solid var(--line); }\n\
    #log { max-height: 34vh; overflow: auto; font: 12px/1.5 var(--mono); padding: 8px 14px; border-bottom: 1px solid var(--line); white-space: pre-wrap; overflow-wrap: anywhere; } #log[hidden] { display: none; }\n\
    #log .q { color: var(--accent); } #log .r { color: var(--ink2); } #log .no { color: var(--red); }\n\
    .ask { display: flex; align-items: center; gap: 8px; padding: 5px 14px; font: 12px/1.4 var(--mono); } .ask input { flex: 1; border: 0; background: none; outline: none; font: inherit; min-width: 60px; } .ask label { color: var(--accent); }\n\
    .ask:focus-within { box-shadow: inset 0 0 0 2px var(--accent); }\n\
    #last { color: var(--ink3); overflow: hidden; text-overflow: ellipsis; white-space: nowrap; max-width: 46%; }\n\
    #lock { position: fixed; inset: 0; background: var(--bg); display: grid; place-items: center; z-index: 9; } #lock[hidden] { display: none; } #lock div { max-width: 460px; padding: 24px; line-height: 1.6; }\n\
    dialog { max-width: 640px; border: 1px solid var(--line2); border-radius: 8px; background: var(--panel); color: var(--ink); padding: 18px 24px; line-height: 1.6; } dialog::backdrop { background: rgba(10,14,22,.45); }\n\
    dialog h2 { font-size: 14px; margin: 14px 0 4px; } dialog h2:first-child { margin-top: 0; } dialog ol { margin: 0; padding-left: 20px; } dialog dl { display: grid; grid-template-columns: max-content 1fr; gap: 3px 16px; margin: 0 0 14px; } dialog dd { margin: 0; }\n\
    kbd { padding: 0 5px; border: 1px solid var(--line2); border-radius: 4px; background: var(--sunk); font-size: 11px; }\n\
    @media (max-width: 1500px) { table.compared .lost { display: none; } }\n\
    @media (max-width: 1360px) { .opt { display: none; } }\n\
    @media (max-width: 1240px) { main { grid-template-columns: 330px minmax(0, 1fr) 330px; } }\n\
    @media (max-width: 1020px) {\n\
    \x20\x20html, body { height: auto; } body { display: block; overflow: auto; } footer { position: sticky; bottom: 0; z-index: 3; }\n\
    \x20\x20main { grid-template-columns: minmax(0, 1fr) minmax(0, 1.25fr); } .col { height: max(560px, 78vh); } .col:last-child { grid-column: 1 / -1; height: auto; min-height: 320px; }\n\
    \x20\x20#time { position: sticky; top: 0; z-index: 2; }\n\
    }\n\
    @media (max-width: 700px) {\n\
    \x20\x20main { grid-template-columns: minmax(0, 1fr); } .col { height: auto; } .col:last-child { grid-column: auto; } .panel { flex: none; height: 330px; } #mappanel { height: 400px; } #insppanel { height: auto; min-height: 300px; }\n\
    \x20\x20.col:nth-child(2) { order: 1; } .col:last-child { order: 0; } .panel > h2 { flex-wrap: wrap; }\n\
    }\n\
    </style>\n\
    </head>\n\
    <body>\n\
    <header>\n\
    \x20\x20<h1><i><b></b><b></b><b></b><b></b></i>heapdbg</h1>\n\
    \x20\x20<span class=\"pill live\" id=\"state\">live</span>\n\
    \x20\x20<div class=\"fact\"><b id=\"place\">\xe2\x80\x93</b><span id=\"span\"></span></div>\n\
    \x20\x20<div class=\"fact\"><b id=\"objects\">\xe2\x80\x93</b><span>objects</span></div>\n\
    \x20\x20<div class=\"fact\"><b id=\"bytes\">\xe2\x80\x93</b><span>bytes</span></div>\n\
    \x20\x20<div class=\"fact opt\" title=\"Bytes of the objects that no register reaches: the next cycle frees them\"><b id=\"lostb\">\xe2\x80\x93</b><span>bytes unreached</span></div>\n\
    \x20\x20<span class=\"pill opt\" id=\"phase\">\xe2\x80\x93</span>\n\
    \x20\x20<span class=\"grow\"></span>\n\
    \x20\x20<span id=\"basebox\"></span>\n\
    \x20\x20<button class=\"btn\" id=\"cycles\" title=\"Compare the ends of the two newest cycles: what has grown there is what no cycle frees (G)\">Growth between cycles</button>\n\
    \x20\x20<button class=\"btn\" id=\"setbase\" title=\"Compare with the place that is shown: then move the handle of the time line to another place (B)\">Compare from here</button>\n\
    \x20\x20<button class=\"btn\" id=\"golive\" disabled title=\"Follow the heap as it changes (L)\">Go live</button>\n\
    \x20\x20<button class=\"btn main\" id=\"save\" title=\"Save the dump of the heap at the place that is shown, as an HPROF file (S)\">Save .hprof</button>\n\
    \x20\x20<button class=\"btn\" id=\"how\" title=\"How to find a leak, and all keys (?)\" aria-label=\"Help\">?</button>\n\
    </header>\n\
    <section id=\"time\" aria-label=\"Time line\"><canvas id=\"line\" tabindex=\"0\" role=\"slider\" aria-label=\"The place that is shown. Left and right move by a step, with Shift by ten.\"></canvas></section>\n\
    <main>\n\
    \x20\x20<div class=\"col\">\n\
    \x20\x20\x20\x20<div class=\"panel\" id=\"classpanel\"><h2>Classes <small id=\"classnote\"></small></h2><div class=\"scroll\"><table id=\"classes\"><thead></thead><tbody></tbody><tfoot></tfoot></table></div></div>\n\
    \x20\x20\x20\x20<div class=\"panel\" id=\"instpanel\"><h2>Instances <small id=\"instnote\"></small></h2><div class=\"scroll\"><table id=\"inst\"><thead></thead><tbody></tbody></table><table id=\"tops\" role=\"treegrid\" aria-label=\"Objects through which most is reached\"><thead><tr><th>Object</th><th class=\"left\">Class</th><th>Objects</th><th>Bytes</th></tr></thead><tbody></tbody></table><div id=\"diffs\"></div><div class=\"empty\" id=\"instempty\">Click a class to list its objects, or compare two places to list those made between them.</div></div></div>\n\
    \x20\x20</div>\n\
    \x20\x20<div class=\"col\">\n\
    \x20\x20\x20\x20<div class=\"panel\" id=\"mappanel\"><h2>Regions <small id=\"mapnote\"></small><span class=\"grow\"></span><span class=\"seg\" role=\"group\" aria-label=\"Zoom\"><button id=\"zoomout\" title=\"Zoom out (-)\" aria-label=\"Zoom out\">\xe2\x88\x92</button><button id=\"zoomin\" title=\"Zoom in (+), or turn the wheel\" aria-label=\"Zoom in\">+</button><button id=\"zoomall\" title=\"Show all regions (0)\">all</button><button id=\"zoomcell\" title=\"Zoom to the cell of the object (Z)\">cell</button></span><span class=\"seg\" role=\"group\" aria-label=\"Colour\"><button id=\"byclass\" aria-pressed=\"true\" title=\"Colour cells by class (C)\">class</button><button id=\"byage\" aria-pressed=\"false\" title=\"Colour cells by age (A)\">age</button></span></h2>\n\
    \x20\x20\x20\x20\x20\x20<div id=\"legend\"></div><div id=\"mapbox\"><canvas id=\"map\" tabindex=\"0\" aria-label=\"Map of the regions. Arrows move from cell to cell, Enter picks the object there.\"></canvas></div></div>\n\
    \x20\x20\x20\x20<div class=\"panel\" id=\"steppanel\"><h2>Steps <small id=\"stepnote\"></small></h2><div class=\"scroll\" id=\"steps\"></div></div>\n\
    \x20\x20</div>\n\
    \x20\x20<div class=\"col\"><div class=\"panel\" id=\"insppanel\"><h2><button class=\"btn small\" id=\"back\" title=\"The object before this one (Backspace)\" aria-label=\"Back\" hidden>\xe2\x86\x90</button>Object <small id=\"inspnote\"></small></h2><div class=\"scroll\" id=\"insp\"></div></div></div>\n\
    </main>\n\
    <footer><div id=\"log\" hidden role=\"log\"></div><form class=\"ask\" id=\"ask\"><label for=\"q\">&gt;</label><input id=\"q\" autocomplete=\"off\" spellcheck=\"false\" placeholder=\"Ask any question of explore, such as: path - 0x10000040\" list=\"forms\" aria-label=\"A question\"><datalist id=\"forms\"></datalist><span id=\"last\"></span></form></footer>\n\
    <div id=\"tip\" hidden></div><div id=\"maptip\" hidden></div>\n\
    <div id=\"lock\" hidden><div><h1 id=\"lockhead\">This page needs its key</h1><p id=\"locktext\"></p></div></div>\n\
    <dialog id=\"help\" aria-label=\"Help\">\n\
    <h2>Find a leak</h2>\n\
    <ol>\n\
    <li><b>Growth between cycles</b> compares the heap at the ends of the two newest marking cycles, so with little garbage in it. Or drag the handle of the time line to a place, press <b>Compare from here</b> (or click the line with <kbd>Shift</kbd>), and drag it to a later one.</li>\n\
    <li>The classes that grew most stand first. Click one: its objects are listed, the oldest first; those that were there before are faint. Below stand the objects that are gone, and the slots that hold something else. With no class picked, the list has the objects through which most is reached: \xe2\x96\xb8 shows which of the objects that one names are reached only through it.</li>\n\
    <li>Click an object. <b>Why it is alive</b> is a shortest path from a register, and <b>Written at</b> the step that wrote each field. What it <b>retains</b> is what would go with it, itself counted; bars show how much of the heap that is. Click a field: all its writes are marked on the time line and listed.</li>\n\
    <li>Click a place, such as @1,507: everything now shows the heap there, and <b>Steps</b> what was done around it.</li>\n\
    </ol>\n\
    <h2>Words</h2>\n\
    A <b>place</b> (@) is how many steps led to a state. A <b>register</b> stands for what a stack holds: an object that no register reaches is <b>unreached</b>, and the next cycle frees it. A <b>cell</b> of a region holds one object.\n\
    <h2>Keys</h2>\n\
    <dl>\n\
    <dt><kbd>\xe2\x86\x90</kbd> <kbd>\xe2\x86\x92</kbd></dt><dd>one step back, one on; with <kbd>Shift</kbd> ten</dd>\n\
    <dt><kbd>[</kbd> <kbd>]</kbd></dt><dd>to the end of the cycle before, of the next one</dd>\n\
    <dt><kbd>,</kbd> <kbd>.</kbd></dt><dd>to the write of the picked field before, to the next one</dd>\n\
    <dt><kbd>Home</kbd>, <kbd>End</kbd> or <kbd>L</kbd></dt><dd>the oldest retained place; live</dd>\n\
    <dt><kbd>B</kbd>, <kbd>G</kbd></dt><dd>compare from here; growth between cycles; again: stop comparing</dd>\n\
    <dt><kbd>+</kbd> <kbd>-</kbd> <kbd>0</kbd> <kbd>Z</kbd></dt><dd>zoom in, out, to all regions, to the cell of the object (or wheel and drag)</dd>\n\
    <dt><kbd>C</kbd>, <kbd>A</kbd></dt><dd>colour cells by class, by age</dd>\n\
    <dt><kbd>Tab</kbd>, <kbd>\xe2\x86\x91</kbd> <kbd>\xe2\x86\x93</kbd>, <kbd>Enter</kbd></dt><dd>to the next part; between rows or cells; pick</dd>\n\
    <dt><kbd>\xe2\x86\x92</kbd> <kbd>\xe2\x86\x90</kbd> on \xe2\x96\xb8</dt><dd>open or close the row; to the row below or above it</dd>\n\
    <dt><kbd>Backspace</kbd></dt><dd>the object before this one</dd>\n\
    <dt><kbd>S</kbd>, <kbd>/</kbd>, <kbd>Esc</kbd></dt><dd>save the dump; ask a question; close its answers and the writes</dd>\n\
    </dl>\n\
    <form method=\"dialog\"><button class=\"btn main\" autofocus>Close</button></form>\n\
    </dialog>\n\
    <script>\n\
    \"use strict\";\n\
    (() => {\n\
    \x20\x20const $ = (id) => document.getElementById(id);\n\
    \x20\x20const el = (tag, cls, text) => {\n\
    \x20\x20\x20\x20const e = document.createElement(tag);\n\
    \x20\x20\x20\x20if (cls) e.className = cls;\n\
    \x20\x20\x20\x20if (text !== undefined) e.textContent = text;\n\
    \x20\x20\x20\x20return e;\n\
    \x20\x20};\n\
    \x20\x20// Writes a whole number with commas. A formatter of the browser takes 20 ms to be made.\n\
    \x20\x20const num = (n) => String(n).replace(/\\B(?=(\\d{3})+$)/g, \",\");\n\
    \x20\x20// The colours and the font of the style, read again when the theme changes.\n\
    \x20\x20let theme = {};\n\
    \x20\x20const css = (name) => theme[name] ?? (theme[name] = getComputedStyle(document.documentElement).getPropertyValue(name).trim());\n\
    \x20\x20// Twelve colours that differ for the colour-blind, too.\n\
    \x20\x20const PALETTE = [\"#4269d0\", \"#efb118\", \"#ff725c\", \"#6cc5b0\", \"#3ca951\", \"#7a311f\", \"#6a13ec\", \"#e6a1f7\", \"#7b428a\", \"#a2cd98\", \"#ae75bd\",\n\
    \x20\x20\x20\x20\"#326752\"\n\
    \x20\x20];\n\
    \x20\x20const OTHER = \"#9498a0\",\n\
    \x20\x20\x20\x20ANCIENT = \"#2b0a3d\",\n\
    \x20\x20\x20\x20BASE = 0x10000000,\n\
    \x20\x20\x20\x20WORDS = 1024,\n\
    \x20\x20\x20\x20SIZES = [4, 16, 64, 256, 1024];\n\
    \x20\x20const EVENTS = {\n\
    \x20\x20\x20\x20\"new\": \"#3ca951\",\n\
    \x20\x20\x20\x20put: \"#4269d0\",\n\
    \x20\x20\x20\x20store: \"#4269d0\",\n\
    \x20\x20\x20\x20reg: \"#9aa5b6\",\n\
    \x20\x20\x20\x20\"class\": \"#a463f2\",\n\
    \x20\x20\x20\x20snap: \"#efb118\",\n\
    \x20\x20\x20\x20mark: \"#efb118\",\n\
    \x20\x20\x20\x20drain: \"#efb118\",\n\
    \x20\x20\x20\x20finish: \"#efb118\",\n\
    \x20\x20\x20\x20sweep: \"#ff725c\",\n\
    \x20\x20\x20\x20reclaim: \"#ff725c\"\n\
    \x20\x20};\n\
    \x20\x20const COLORS = [...new Set(Object.values(EVENTS))];\n\
    \x20\x20// The most objects that are listed, the most requests at a time, the steps that are read before all are, the most that are read again while the heap goes on, the\n\
    \x20\x20// objects that are listed through which most is reached, the objects below one of them that are listed at a time, and the slots of an\n\
    \x20\x20// object that are asked for at a time.\n\
    \x20\x20const LISTED = 200,\n\
    \x20\x20\x20\x20LANES = 6,\n\
    \x20\x20\x20\x20FEW = 400,\n\
    \x20\x20\x20\x20MANY = 4000,\n\
    \x20\x20\x20\x20TOPS = 20,\n\
    \x20\x20\x20\x20KIDS = 20,\n\
    \x20\x20\x20\x20SLOTS = 1000;\n\
    \n\
    \x20\x20// ---- what is known\n\
    \x20\x20const key = location.hash.slice(1) || sessionStorage.getItem(\"heapdbg-key\") || \"\";\n\
    \n\
    \x20\x20// Keeps the key, and takes it out of the address.\n\
    \x20\x20function keepKey() {\n\
    \x20\x20\x20\x20if (location.hash.length < 2) return;\n\
    \x20\x20\x20\x20sessionStorage.setItem(\"heapdbg-key\", key);\n\
    \x20\x20\x20\x20history.replaceState(null, \"\", \"/\");\n\
    \x20\x20}\n\
    \x20\x20const S = {\n\
    \x20\x20\x20\x20place: -1,\n\
    \x20\x20\x20\x20oldest: 0,\n\
    \x20\x20\x20\x20status: {},\n\
    \x20\x20\x20\x20at: null,\n\
    \x20\x20\x20\x20shown: -1,\n\
    \x20\x20\x20\x20base: null,\n\
    \x20\x20\x20\x20sort: [\"bytes\", -1],\n\
    \x20\x20\x20\x20klass: null,\n\
    \x20\x20\x20\x20tops: { place: -1, rows: [] },\n\
    \x20\x20\x20\x20diffs: { base: null, place: -1, rows: [] },\n\
    \x20\x20\x20\x20open: new Set(),\n\
    \x20\x20\x20\x20kids: new Map(),\n\
    \x20\x20\x20\x20sizes: { place: -1, of: new Map(), before: new Map() },\n\
    \x20\x20\x20\x20order: 0,\n\
    \x20\x20\x20\x20watch: null,\n\
    \x20\x20\x20\x20sel: null,\n\
    \x20\x20\x20\x20trail: [],\n\
    \x20\x20\x20\x20by: \"class\",\n\
    \x20\x20\x20\x20hist: [],\n\
    \x20\x20\x20\x20total: null,\n\
    \x20\x20\x20\x20garbage: new Map(),\n\
    \x20\x20\x20\x20growth: new Map(),\n\
    \x20\x20\x20\x20regions: new Map(),\n\
    \x20\x20\x20\x20regs: [],\n\
    \x20\x20\x20\x20events: [],\n\
    \x20\x20\x20\x20first: 0,\n\
    \x20\x20\x20\x20whole: false,\n\
    \x20\x20\x20\x20fast: false,\n\
    \x20\x20\x20\x20born: new Map(),\n\
    \x20\x20\x20\x20cycles: [],\n\
    \x20\x20\x20\x20samples: new Map(),\n\
    \x20\x20\x20\x20told: { classes: \"\", pins: \"ok 0\\n\" },\n\
    \x20\x20\x20\x20pins: [],\n\
    \x20\x20\x20\x20classes: new Map(),\n\
    \x20\x20\x20\x20classOf: new Map(),\n\
    \x20\x20\x20\x20color: new Map(),\n\
    \x20\x20\x20\x20path: new Set(),\n\
    \x20\x20\x20\x20refs: new Set(),\n\
    \x20\x20\x20\x20retains: { id: null, text: \"\", bytes: 0 },\n\
    \x20\x20\x20\x20most: SLOTS,\n\
    \x20\x20\x20\x20writers: [],\n\
    \x20\x20\x20\x20later: 0,\n\
    \x20\x20\x20\x20more: 0,\n\
    \x20\x20\x20\x20epoch: 0,\n\
    \x20\x20\x20\x20took: null,\n\
    \x20\x20\x20\x20began: 0\n\
    \x20\x20};\n\
    \x20\x20const atPlace = () => S.at === null ? S.place : S.at;\n\
    \x20\x20// A look asks several lines, which are to be about one state: that of the newest step that is known. If the heap goes on so fast that\n\
    \x20\x20// this state is forgotten at once, each is about the state that it finds.\n\
    \x20\x20const atWord = () => S.at !== null ? \"@\" + S.at : S.fast ? \"-\" : \"@\" + S.place;\n\
    \n\
    \x20\x20// ---- asking\n\
    \x20\x20let busy = 0;\n\
    \x20\x20const queue = [];\n\
    \x20\x20async function post(path, body, form = \"text\") {\n\
    \x20\x20\x20\x20if (busy < LANES) busy++;\n\
    \x20\x20\x20\x20else await new Promise((go) => queue.push(go));\n\
    \x20\x20\x20\x20try {\n\
    \x20\x20\x20\x20\x20\x20const reply = await fetch(path, {\n\
    \x20\x20\x20\x20\x20\x20\x20\x20method: \"POST\",\n\
    \x20\x20\x20\x20\x20\x20\x20\x20body,\n\
    \x20\x20\x20\x20\x20\x20\x20\x20headers: {\n\
    \x20\x20\x20\x20\x20\x20\x20\x20\x20\x20\"X-Heapdbg-Key\": key,\n\
    \x20\x20\x20\x20\x20\x20\x20\x20\x20\x20\"Content-Type\": \"text/plain\"\n\
    \x20\x20\x20\x20\x20\x20\x20\x20},\n\
    \x20\x20\x20\x20\x20\x20\x20\x20credentials: \"omit\",\n\
    \x20\x20\x20\x20\x20\x20\x20\x20cache: \"no-store\"\n\
    \x20\x20\x20\x20\x20\x20});\n\
    \x20\x20\x20\x20\x20\x20if (reply.status === 401) {\n\
    \x20\x20\x20\x20\x20\x20\x20\x20lock(\"The key of this page is not the one that the heap has now\",\n\
    \x20\x20\x20\x20\x20\x20\x20\x20\x20\x20\"heapdbg prints the address of the page with its key when it starts. Open that address.\");\n\
    \x20\x20\x20\x20\x20\x20\x20\x20throw new Error(\"key\");\n\
    \x20\x20\x20\x20\x20\x20}\n\
    \x20\x20\x20\x20\x20\x20return { reply, data: await reply[form]() };\n\
    \x20\x20\x20\x20} finally {\n\
    \x20\x20\x20\x20\x20\x20if (queue.length) queue.shift()();\n\
    \x20\x20\x20\x20\x20\x20else busy--;\n\
    \x20\x20\x20\x20}\n\
    \x20\x20}\n\
    \n\
    \x20\x20// Returns the answer of a line: its text, its last line, and that one's words. Rows are cut when they are looked at.\n\
    \x20\x20async function ask(line, quiet) {\n\
    \x20\x20\x20\x20const began = performance.now(),\n\
    \x20\x20\x20\x20\x20\x20text = (await post(\"/ask\", line)).data,\n\
    \x20\x20\x20\x20\x20\x20ms = performance.now() - began,\n\
    \x20\x20\x20\x20\x20\x20cut = text.lastIndexOf(\"\\n\", text.length - 2) + 1,\n\
    \x20\x20\x20\x20\x20\x20last = text.slice(cut).trimEnd();\n\
    \x20\x20\x20\x20if (!quiet) $(\"last\").textContent = `${line}  \xe2\x86\x92  ${last.slice(0, 60)}  ${ms.toFixed(ms < 10 ? 1 : 0)} ms`;\n\
    \x20\x20\x20\x20return {\n\
    \x20\x20\x20\x20\x20\x20text,\n\
    \x20\x20\x20\x20\x20\x20last,\n\
    \x20\x20\x20\x20\x20\x20ms,\n\
    \x20\x20\x20\x20\x20\x20ok: last.startsWith(\"ok\"),\n\
    \x20\x20\x20\x20\x20\x20words: last.split(\" \"),\n\
    \x20\x20\x20\x20\x20\x20get rows() {\n\
    \x20\x20\x20\x20\x20\x20\x20\x20return text.slice(0, cut).split(\"\\n\").slice(0, -1).map((l) => l.split(\" \").slice(1));\n\
    \x20\x20\x20\x20\x20\x20}\n\
    \x20\x20\x20\x20};\n\
    \x20\x20}\n\
    \n\
    \x20\x20// Returns the objects of a state, if it is retained.\n\
    \x20\x20const askObjects = async (at) => regionsOf(new Uint8Array((await post(\"/ask\", \"objects \" + at, \"arrayBuffer\")).data));\n\
    \n\
    \x20\x20// Does something for each of a list as long as it is wanted: two at a time, so that other questions needn't wait for them.\n\
    \x20\x20async function eachInTurn(list, wanted, act) {\n\
    \x20\x20\x20\x20const rest = [...list],\n\
    \x20\x20\x20\x20\x20\x20lane = async () => {\n\
    \x20\x20\x20\x20\x20\x20\x20\x20while (rest.length && wanted()) await act(rest.shift());\n\
    \x20\x20\x20\x20\x20\x20};\n\
    \x20\x20\x20\x20await Promise.all([lane(), lane()]);\n\
    \x20\x20}\n\
    \n\
    \x20\x20function lock(head, text) {\n\
    \x20\x20\x20\x20$(\"lock\").hidden = false;\n\
    \x20\x20\x20\x20$(\"lockhead\").textContent = head;\n\
    \x20\x20\x20\x20$(\"locktext\").textContent = text;\n\
    \x20\x20}\n\
    \n\
    \x20\x20// ---- colours\n\
    \x20\x20const colorOf = (name) => S.color.get(name) || OTHER;\n\
    \n\
    \x20\x20function giveColors() {\n\
    \x20\x20\x20\x20for (const row of [...S.hist].sort((a, b) => b.bytes - a.bytes))\n\
    \x20\x20\x20\x20\x20\x20if (!S.color.has(row.name) && S.color.size < PALETTE.length) S.color.set(row.name, PALETTE[S.color.size]);\n\
    \x20\x20}\n\
    \x20\x20// From just made to old.\n\
    \x20\x20const STOPS = [\n\
    \x20\x20\x20\x20[253, 231, 37],\n\
    \x20\x20\x20\x20[94, 201, 98],\n\
    \x20\x20\x20\x20[33, 145, 140],\n\
    \x20\x20\x20\x20[59, 82, 139],\n\
    \x20\x20\x20\x20[68, 1, 84]\n\
    \x20\x20];\n\
    \n\
    \x20\x20function ramp(t) {\n\
    \x20\x20\x20\x20const x = Math.max(0, Math.min(.9999, t)) * 4,\n\
    \x20\x20\x20\x20\x20\x20i = Math.floor(x),\n\
    \x20\x20\x20\x20\x20\x20f = x - i;\n\
    \x20\x20\x20\x20return \"#\" + [0, 1, 2].map((k) => Math.round(STOPS[i][k] + (STOPS[i + 1][k] - STOPS[i][k]) * f).toString(16).padStart(2, \"0\")).join(\"\");\n\
    \x20\x20}\n\
    \x20\x20const rgb = (hex) => [1, 3, 5].map((k) => parseInt(hex.slice(k, k + 2), 16));\n\
    \n\
    \x20\x20// ---- objects\n\
    \x20\x20const idOf = (word) => \"0x\" + (BASE + word * 8).toString(16).padStart(8, \"0\");\n\
    \x20\x20const wordOf = (id) => (parseInt(id, 16) - BASE) / 8;\n\
    \x20\x20// Of each cell its object, as a number: that of its class's name among `names`, then its slots and whether no register reaches it. 0 if\n\
    \x20\x20// there is none. The one object of a region whose cell takes several regions may have more slots: `slots` are its.\n\
    \x20\x20const regionOf = (size, number, names) => ({\n\
    \x20\x20\x20\x20number,\n\
    \x20\x20\x20\x20size,\n\
    \x20\x20\x20\x20shift: Math.log2(size),\n\
    \x20\x20\x20\x20sweep: false,\n\
    \x20\x20\x20\x20letters: \"\",\n\
    \x20\x20\x20\x20names,\n\
    \x20\x20\x20\x20slots: 0,\n\
    \x20\x20\x20\x20cells: new Uint32Array(Math.max(1, WORDS / size))\n\
    \x20\x20});\n\
    \x20\x20const NAME = 4096;\n\
    \x20\x20const sizeFor = (slots) => SIZES.find((size) => size >= slots) || WORDS * Math.ceil(slots / WORDS);\n\
    \n\
    \x20\x20// Returns what the map shows of a region: itself, or if its cell takes several regions, a part for each of these, with one cell.\n\
    \x20\x20const partsOf = (g) => g.size <= WORDS ? [g] : Array.from({ length: g.size / WORDS }, (_, k) => ({ ...g, number: g.number + k, size: WORDS, whole: g }));\n\
    \n\
    \x20\x20// Returns the object in a cell, if there is one.\n\
    \x20\x20function objectIn(g, cell) {\n\
    \x20\x20\x20\x20const of = g.cells[cell],\n\
    \x20\x20\x20\x20\x20\x20first = (g.whole || g).number;\n\
    \x20\x20\x20\x20return of ? { w: first * WORDS + cell * g.size, name: g.names[Math.floor(of / NAME)], slots: g.slots || of % NAME >> 1, lost: of % 2 === 1 } : undefined;\n\
    \x20\x20}\n\
    \x20\x20const ID = \"row 0x\".length,\n\
    \x20\x20\x20\x20END = ID + 8,\n\
    \x20\x20\x20\x20LF = 10,\n\
    \x20\x20\x20\x20[R, O] = [\"r\", \"o\"].map((letter) => letter.charCodeAt(0)),\n\
    \x20\x20\x20\x20DIGITS = new Uint8Array(128);\n\
    \x20\x20for (let digit = 0; digit < 16; digit++) DIGITS[digit.toString(16).charCodeAt(0)] = digit;\n\
    \n\
    \x20\x20// Tells whether the same bytes stand at two places.\n\
    \x20\x20function isSame(bytes, a, b, count) {\n\
    \x20\x20\x20\x20let k = 0;\n\
    \x20\x20\x20\x20while (k < count && bytes[a + k] === bytes[b + k]) k++;\n\
    \x20\x20\x20\x20return k === count;\n\
    \x20\x20}\n\
    \x20\x20const textOf = (bytes, from, to) => String.fromCharCode(...bytes.subarray(from, to));\n\
    \n\
    \x20\x20// Returns what gives the end of a row of `objects`, such as \" Node 2 unreached\\n\": where it stands for the first time, its size, and\n\
    \x20\x20// the number of an object there.\n\
    \x20\x20function numbering(bytes, names) {\n\
    \x20\x20\x20\x20const known = new Map();\n\
    \x20\x20\x20\x20return (at) => {\n\
    \x20\x20\x20\x20\x20\x20let sum = 0,\n\
    \x20\x20\x20\x20\x20\x20\x20\x20to = at;\n\
    \x20\x20\x20\x20\x20\x20for (; bytes[to] !== LF; to++) sum = sum * 31 + bytes[to] | 0;\n\
    \x20\x20\x20\x20\x20\x20const size = to + 1 - at,\n\
    \x20\x20\x20\x20\x20\x20\x20\x20same = known.get(sum);\n\
    \x20\x20\x20\x20\x20\x20if (same && same.size === size && isSame(bytes, same.at, at, size)) return same;\n\
    \x20\x20\x20\x20\x20\x20const [, name, slots, lost] = textOf(bytes, at, to).split(\" \");\n\
    \x20\x20\x20\x20\x20\x20if (!names.includes(name)) names.push(name);\n\
    \x20\x20\x20\x20\x20\x20const end = { at, size, slots: +slots, of: names.indexOf(name) * NAME + (slots > WORDS ? 0 : slots * 2) + (lost ? 1 : 0) };\n\
    \x20\x20\x20\x20\x20\x20known.set(sum, end);\n\
    \x20\x20\x20\x20\x20\x20return end;\n\
    \x20\x20\x20\x20};\n\
    \x20\x20}\n\
    \n\
    \x20\x20// Returns the regions that the rows of `objects` fill, by number, how many objects there are of each class and how many of these no\n\
    \x20\x20// register reaches, and whether there was an answer. There may be very many rows, and most of them end as the one before.\n\
    \x20\x20function regionsOf(bytes) {\n\
    \x20\x20\x20\x20const regions = new Map(),\n\
    \x20\x20\x20\x20\x20\x20names = [\"\"],\n\
    \x20\x20\x20\x20\x20\x20endAt = numbering(bytes, names),\n\
    \x20\x20\x20\x20\x20\x20tally = new Map();\n\
    \x20\x20\x20\x20let end = { at: 0, size: 0, slots: 0, of: 0 },\n\
    \x20\x20\x20\x20\x20\x20count = 0,\n\
    \x20\x20\x20\x20\x20\x20g = null,\n\
    \x20\x20\x20\x20\x20\x20i = 0;\n\
    \x20\x20\x20\x20for (; bytes[i] === R; i += END + end.size) {\n\
    \x20\x20\x20\x20\x20\x20let k = 0;\n\
    \x20\x20\x20\x20\x20\x20while (k < end.size && bytes[end.at + k] === bytes[i + END + k]) k++;\n\
    \x20\x20\x20\x20\x20\x20if (k < end.size || k === 0) {\n\
    \x20\x20\x20\x20\x20\x20\x20\x20addTo(tally, names, end, count);\n\
    \x20\x20\x20\x20\x20\x20\x20\x20count = 0;\n\
    \x20\x20\x20\x20\x20\x20\x20\x20end = endAt(i + END);\n\
    \x20\x20\x20\x20\x20\x20}\n\
    \x20\x20\x20\x20\x20\x20count++;\n\
    \x20\x20\x20\x20\x20\x20const at = i + ID,\n\
    \x20\x20\x20\x20\x20\x20\x20\x20id = DIGITS[bytes[at]] << 28 | DIGITS[bytes[at + 1]] << 24 | DIGITS[bytes[at + 2]] << 20 | DIGITS[bytes[at + 3]] << 16 |\n\
    \x20\x20\x20\x20\x20\x20\x20\x20DIGITS[bytes[at + 4]] << 12 | DIGITS[bytes[at + 5]] << 8 | DIGITS[bytes[at + 6]] << 4 | DIGITS[bytes[at + 7]],\n\
    \x20\x20\x20\x20\x20\x20\x20\x20word = (id >>> 0) - BASE >>> 3;\n\
    \x20\x20\x20\x20\x20\x20if (!g || word >>> 10 !== g.number) {\n\
    \x20\x20\x20\x20\x20\x20\x20\x20const number = word >>> 10;\n\
    \x20\x20\x20\x20\x20\x20\x20\x20g = regions.get(number);\n\
    \x20\x20\x20\x20\x20\x20\x20\x20if (!g) regions.set(number, g = regionOf(sizeFor(end.slots), number, names));\n\
    \x20\x20\x20\x20\x20\x20\x20\x20if (end.slots > WORDS) g.slots = end.slots;\n\
    \x20\x20\x20\x20\x20\x20}\n\
    \x20\x20\x20\x20\x20\x20g.cells[word % WORDS >> g.shift] = end.of;\n\
    \x20\x20\x20\x20}\n\
    \x20\x20\x20\x20addTo(tally, names, end, count);\n\
    \x20\x20\x20\x20return { ok: bytes[i] === O, regions, tally };\n\
    \x20\x20}\n\
    \n\
    \x20\x20// Adds objects of one class and size to those that were counted.\n\
    \x20\x20function addTo(tally, names, end, count) {\n\
    \x20\x20\x20\x20if (!count) return;\n\
    \x20\x20\x20\x20const name = names[Math.floor(end.of / NAME)],\n\
    \x20\x20\x20\x20\x20\x20slots = end.slots * count;\n\
    \x20\x20\x20\x20let t = tally.get(name);\n\
    \x20\x20\x20\x20if (!t) tally.set(name, t = { slots: 0, lost: 0, lostSlots: 0 });\n\
    \x20\x20\x20\x20t.slots += slots;\n\
    \x20\x20\x20\x20if (end.of % 2 === 0) return;\n\
    \x20\x20\x20\x20t.lost += count;\n\
    \x20\x20\x20\x20t.lostSlots += slots;\n\
    \x20\x20}\n\
    \n\
    \x20\x20// Adds what `cells` says. A region that has another size there was taken anew since.\n\
    \x20\x20function addCells(regions, rows) {\n\
    \x20\x20\x20\x20for (const [number, size, sweep, letters] of rows) {\n\
    \x20\x20\x20\x20\x20\x20let g = regions.get(+number);\n\
    \x20\x20\x20\x20\x20\x20if (!g) regions.set(+number, g = regionOf(+size, +number, []));\n\
    \x20\x20\x20\x20\x20\x20g.sweep = sweep === \"sweep\";\n\
    \x20\x20\x20\x20\x20\x20if (g.size === +size) g.letters = letters;\n\
    \x20\x20\x20\x20}\n\
    \x20\x20}\n\
    \n\
    \x20\x20function objectAt(id) {\n\
    \x20\x20\x20\x20const w = wordOf(id),\n\
    \x20\x20\x20\x20\x20\x20g = S.regions.get(Math.floor(w / WORDS));\n\
    \x20\x20\x20\x20return g && objectIn(g, (w % WORDS) / g.size);\n\
    \x20\x20}\n\
    \n\
    \x20\x20// Calls f for each cell with an object of a class, or of any.\n\
    \x20\x20function eachCell(name, f) {\n\
    \x20\x20\x20\x20for (const g of S.regions.values()) {\n\
    \x20\x20\x20\x20\x20\x20const only = name === null ? 0 : g.names.indexOf(name);\n\
    \x20\x20\x20\x20\x20\x20for (let cell = 0; cell < g.cells.length; cell++)\n\
    \x20\x20\x20\x20\x20\x20\x20\x20if (g.cells[cell] && (!only || Math.floor(g.cells[cell] / NAME) === only)) f(g, cell);\n\
    \x20\x20\x20\x20}\n\
    \x20\x20}\n\
    \n\
    \x20\x20// ---- what the heap did\n\
    \x20\x20// Returns the steps of the rows of `history` up to a place, the oldest first.\n\
    \x20\x20function eventsOf(text, place) {\n\
    \x20\x20\x20\x20const found = [];\n\
    \x20\x20\x20\x20for (let i = 0; text.startsWith(\"row \", i);) {\n\
    \x20\x20\x20\x20\x20\x20const end = text.indexOf(\"\\n\", i),\n\
    \x20\x20\x20\x20\x20\x20\x20\x20gap = text.indexOf(\" \", i + 4),\n\
    \x20\x20\x20\x20\x20\x20\x20\x20p = +text.slice(i + 4, gap),\n\
    \x20\x20\x20\x20\x20\x20\x20\x20stop = text.indexOf(\" \", gap + 1),\n\
    \x20\x20\x20\x20\x20\x20\x20\x20kind = text.slice(gap + 1, stop < 0 || stop > end ? end : stop),\n\
    \x20\x20\x20\x20\x20\x20\x20\x20w = kind === \"new\" || kind === \"put\" || kind === \"store\" ? wordOf(text.slice(stop + 1, stop + 11)) : -1;\n\
    \x20\x20\x20\x20\x20\x20if (p <= place) found.push({ p, kind, color: COLORS.indexOf(EVENTS[kind]), w, line: text.slice(gap + 1, end) });\n\
    \x20\x20\x20\x20\x20\x20i = end + 1;\n\
    \x20\x20\x20\x20}\n\
    \x20\x20\x20\x20return found.reverse();\n\
    \x20\x20}\n\
    \x20\x20const wordsOf = (e) => e.line.split(\" \");\n\
    \x20\x20const eventAt = (p) => S.events[p - S.first];\n\
    \n\
    \x20\x20// Takes what was read in place of all steps before.\n\
    \x20\x20function takeEvents(events, whole) {\n\
    \x20\x20\x20\x20S.events = events;\n\
    \x20\x20\x20\x20S.whole = whole;\n\
    \x20\x20\x20\x20S.first = events.length ? events[0].p : S.place + 1;\n\
    \x20\x20\x20\x20S.born = new Map();\n\
    \x20\x20\x20\x20S.cycles = [];\n\
    \x20\x20\x20\x20note(events);\n\
    \x20\x20}\n\
    \n\
    \x20\x20// Notes where objects were made, and cycles.\n\
    \x20\x20function note(events) {\n\
    \x20\x20\x20\x20for (const e of events)\n\
    \x20\x20\x20\x20\x20\x20if (e.kind === \"new\") {\n\
    \x20\x20\x20\x20\x20\x20\x20\x20const list = S.born.get(e.w);\n\
    \x20\x20\x20\x20\x20\x20\x20\x20if (list) list.push(e.p);\n\
    \x20\x20\x20\x20\x20\x20\x20\x20else S.born.set(e.w, [e.p]);\n\
    \x20\x20\x20\x20\x20\x20} else if (e.kind === \"snap\") S.cycles.push({ from: e.p, to: null, end: null });\n\
    \x20\x20\x20\x20else if (e.kind === \"finish\") {\n\
    \x20\x20\x20\x20\x20\x20const last = S.cycles[S.cycles.length - 1];\n\
    \x20\x20\x20\x20\x20\x20if (last && last.to === null) last.to = last.end = e.p;\n\
    \x20\x20\x20\x20\x20\x20else S.cycles.push({ from: null, to: e.p, end: e.p });\n\
    \x20\x20\x20\x20} else if (e.kind === \"sweep\" || e.kind === \"reclaim\") {\n\
    \x20\x20\x20\x20\x20\x20const last = S.cycles[S.cycles.length - 1];\n\
    \x20\x20\x20\x20\x20\x20if (last && last.to !== null) last.end = e.p;\n\
    \x20\x20\x20\x20}\n\
    \x20\x20}\n\
    \n\
    \x20\x20function forgetEvents() {\n\
    \x20\x20\x20\x20const drop = S.oldest + 1 - S.first;\n\
    \x20\x20\x20\x20if (drop <= 0) return;\n\
    \x20\x20\x20\x20for (const e of S.events.splice(0, drop))\n\
    \x20\x20\x20\x20\x20\x20if (e.kind === \"new\") {\n\
    \x20\x20\x20\x20\x20\x20\x20\x20const list = S.born.get(e.w);\n\
    \x20\x20\x20\x20\x20\x20\x20\x20list.shift();\n\
    \x20\x20\x20\x20\x20\x20\x20\x20if (!list.length) S.born.delete(e.w);\n\
    \x20\x20\x20\x20\x20\x20}\n\
    \x20\x20\x20\x20S.first = S.oldest + 1;\n\
    \x20\x20\x20\x20while (S.cycles.length && S.cycles[0].end !== null && S.cycles[0].end < S.oldest) S.cycles.shift();\n\
    \x20\x20\x20\x20for (const p of S.samples.keys())\n\
    \x20\x20\x20\x20\x20\x20if (p < S.oldest) S.samples.delete(p);\n\
    \x20\x20}\n\
    \n\
    \x20\x20// Reads the steps up to a place: those since the last one that is known, if they go on from it; else the newest few.\n\
    \x20\x20async function loadEvents(place) {\n\
    \x20\x20\x20\x20const last = S.events.length ? S.events[S.events.length - 1] : null,\n\
    \x20\x20\x20\x20\x20\x20since = last ? place - last.p : Infinity;\n\
    \x20\x20\x20\x20if (since >= 0 && since <= MANY) {\n\
    \x20\x20\x20\x20\x20\x20const got = eventsOf((await ask(\"history \" + (since * 2 + 64), true)).text, place),\n\
    \x20\x20\x20\x20\x20\x20\x20\x20joined = got.length ? last.p - got[0].p : -1,\n\
    \x20\x20\x20\x20\x20\x20\x20\x20same = joined >= 0 && got.slice(Math.max(0, joined - 8), joined + 1).every((e) => !eventAt(e.p) || eventAt(e.p).line === e.line);\n\
    \x20\x20\x20\x20\x20\x20if (same) {\n\
    \x20\x20\x20\x20\x20\x20\x20\x20const fresh = got.slice(joined + 1);\n\
    \x20\x20\x20\x20\x20\x20\x20\x20S.events.push(...fresh);\n\
    \x20\x20\x20\x20\x20\x20\x20\x20note(fresh);\n\
    \x20\x20\x20\x20\x20\x20\x20\x20return forgetEvents();\n\
    \x20\x20\x20\x20\x20\x20}\n\
    \x20\x20\x20\x20}\n\
    \x20\x20\x20\x20takeEvents(eventsOf((await ask(\"history \" + FEW, true)).text, place), place - S.oldest <= FEW);\n\
    \x20\x20\x20\x20S.samples.clear();\n\
    \x20\x20\x20\x20S.epoch++;\n\
    \x20\x20}\n\
    \n\
    \x20\x20// Reads all retained steps.\n\
    \x20\x20async function loadWhole() {\n\
    \x20\x20\x20\x20if (S.whole) return;\n\
    \x20\x20\x20\x20const place = S.place,\n\
    \x20\x20\x20\x20\x20\x20events = eventsOf((await ask(\"history 65536\", true)).text, place);\n\
    \x20\x20\x20\x20if (S.whole || place !== S.place) return;\n\
    \x20\x20\x20\x20takeEvents(events, true);\n\
    \x20\x20\x20\x20drawHead();\n\
    \x20\x20\x20\x20drawLine();\n\
    \x20\x20\x20\x20drawInstances();\n\
    \x20\x20\x20\x20drawSteps();\n\
    \x20\x20\x20\x20if (S.sel) await inspect(S.sel, true);\n\
    \x20\x20}\n\
    \n\
    \x20\x20const bornAt = ({ w }, at) => bornIn(w, at);\n\
    \n\
    \x20\x20// Returns where the object was made that is at a word at a place, or null if that isn't known.\n\
    \x20\x20function bornIn(w, at) {\n\
    \x20\x20\x20\x20const list = S.born.get(w);\n\
    \x20\x20\x20\x20if (!list) return null;\n\
    \x20\x20\x20\x20let found = null;\n\
    \x20\x20\x20\x20for (const p of list) {\n\
    \x20\x20\x20\x20\x20\x20if (p <= at) found = p;\n\
    \x20\x20\x20\x20\x20\x20else break;\n\
    \x20\x20\x20\x20}\n\
    \x20\x20\x20\x20return found;\n\
    \x20\x20}\n\
    \x20\x20const unknown = () => S.whole ? \"older\" : \"\xe2\x80\xa6\";\n\
    \n\
    \x20\x20// ---- the shown state\n\
    \x20\x20// Asks all that makes up a state, the longest answer first. If a class has the name of a kind of arrays, what no register reaches is\n\
    \x20\x20// asked, too.\n\
    \x20\x20async function askState(at, live) {\n\
    \x20\x20\x20\x20const found = await Promise.all([askObjects(at), ...[`histogram ${at}`, live ? \"cells\" : null, `registers ${at}`,\n\
    \x20\x20\x20\x20\x20\x20S.base === null ? null : `growth @${S.base} ${at}`\n\
    \x20\x20\x20\x20].map((line) => line && ask(line, true))]),\n\
    \x20\x20\x20\x20\x20\x20names = found[1].rows.map((x) => x[2]);\n\
    \x20\x20\x20\x20return new Set(names).size < names.length ? [...found, await ask(`garbage ${at}`, true)] : found;\n\
    \x20\x20}\n\
    \n\
    \x20\x20// Takes of each class how many objects no register reaches, and of all how many bytes these have: as `garbage` says, or from the\n\
    \x20\x20// rows of `objects`, since the bytes of a class are as many for each of its slots.\n\
    \x20\x20function takeGarbage(tally, garbage) {\n\
    \x20\x20\x20\x20S.garbage = new Map(garbage ? garbage.rows.map((x) => [x[2], +x[0]]) : []);\n\
    \x20\x20\x20\x20S.lost = garbage ? +garbage.words[2] : 0;\n\
    \x20\x20\x20\x20if (garbage) return;\n\
    \x20\x20\x20\x20for (const { name, bytes } of S.hist) {\n\
    \x20\x20\x20\x20\x20\x20const t = tally.get(name);\n\
    \x20\x20\x20\x20\x20\x20if (!t || !t.lost) continue;\n\
    \x20\x20\x20\x20\x20\x20S.garbage.set(name, t.lost);\n\
    \x20\x20\x20\x20\x20\x20S.lost += t.slots && Math.round(bytes * t.lostSlots / t.slots);\n\
    \x20\x20\x20\x20}\n\
    \x20\x20}\n\
    \n\
    \x20\x20// Takes what was answered of the classes. Returns whether anything is new.\n\
    \x20\x20function takeClasses(k) {\n\
    \x20\x20\x20\x20if (!k.ok || k.text === S.told.classes) return false;\n\
    \x20\x20\x20\x20S.told.classes = k.text;\n\
    \x20\x20\x20\x20S.classes = new Map(k.rows.map((x) => [+x[0], { name: x[1], up: x[2], fields: x.slice(3).map((f) => f.split(\":\")[0]) }]));\n\
    \x20\x20\x20\x20S.classOf = new Map([...S.classes].map(([, c]) => [c.name, c]));\n\
    \x20\x20\x20\x20return true;\n\
    \x20\x20}\n\
    \n\
    \x20\x20// Takes what was answered of the pins. Returns whether anything is new.\n\
    \x20\x20function takePins(pins) {\n\
    \x20\x20\x20\x20if (pins.text === S.told.pins) return false;\n\
    \x20\x20\x20\x20S.told.pins = pins.text;\n\
    \x20\x20\x20\x20S.pins = pins.rows;\n\
    \x20\x20\x20\x20return true;\n\
    \x20\x20}\n\
    \n\
    \x20\x20// Takes what was answered of the state at a place, and draws it. Returns false if that state is no longer retained.\n\
    \x20\x20function takeState([o, h, cells, r, d, g], place) {\n\
    \x20\x20\x20\x20unveil();\n\
    \x20\x20\x20\x20if (!h.ok || !o.ok || (g && !g.ok)) return false;\n\
    \x20\x20\x20\x20S.shown = place;\n\
    \x20\x20\x20\x20S.hist = h.rows.map((x) => ({ objects: +x[0], bytes: +x[1], name: x[2] }));\n\
    \x20\x20\x20\x20S.total = { objects: +h.words[1], bytes: +h.words[2] };\n\
    \x20\x20\x20\x20keepSample(place, h);\n\
    \x20\x20\x20\x20giveColors();\n\
    \x20\x20\x20\x20S.regions = o.regions;\n\
    \x20\x20\x20\x20if (cells) addCells(S.regions, cells.rows);\n\
    \x20\x20\x20\x20takeGarbage(o.tally, g);\n\
    \x20\x20\x20\x20S.growth = new Map();\n\
    \x20\x20\x20\x20if (d && d.ok)\n\
    \x20\x20\x20\x20\x20\x20for (const x of d.rows) S.growth.set(x[0], { objects: x[3] - x[1], bytes: x[4] - x[2] });\n\
    \x20\x20\x20\x20else if (d) S.base = null;\n\
    \x20\x20\x20\x20if (r.ok) S.regs = r.rows.filter((x) => x[2] !== \"null\");\n\
    \x20\x20\x20\x20M.fresh = true;\n\
    \x20\x20\x20\x20draw();\n\
    \x20\x20\x20\x20return true;\n\
    \x20\x20}\n\
    \n\
    \x20\x20// Does something once what has been drawn is on the screen.\n\
    \x20\x20const afterPaint = (act) => requestAnimationFrame(() => setTimeout(act));\n\
    \n\
    \x20\x20// Notes how long it took from what was asked for until it was on the screen.\n\
    \x20\x20function onScreen(place, asked) {\n\
    \x20\x20\x20\x20afterPaint(() => {\n\
    \x20\x20\x20\x20\x20\x20S.took = { place, ms: performance.now() - asked };\n\
    \x20\x20\x20\x20\x20\x20if (!performance.getEntriesByName(\"shown\").length) performance.mark(\"shown\");\n\
    \x20\x20\x20\x20\x20\x20loadRest().catch(() => {});\n\
    \x20\x20\x20\x20\x20\x20if (!S.fast && !S.whole) loadWhole().catch(() => {});\n\
    \x20\x20\x20\x20});\n\
    \x20\x20}\n\
    \n\
    \x20\x20// Reads what is the same at all places, once the state is on the screen: those of the newest state are the classes of each, and the\n\
    \x20\x20// pins.\n\
    \x20\x20async function loadRest() {\n\
    \x20\x20\x20\x20const [classes, pins] = await Promise.all([ask(\"classes -\", true), ask(\"pins\", true)]);\n\
    \x20\x20\x20\x20if (takePins(pins)) drawLine();\n\
    \x20\x20\x20\x20if (takeClasses(classes)) drawSteps();\n\
    \x20\x20}\n\
    \x20\x20async function loadState() {\n\
    \x20\x20\x20\x20const live = S.at === null,\n\
    \x20\x20\x20\x20\x20\x20place = atPlace(),\n\
    \x20\x20\x20\x20\x20\x20asked = S.began;\n\
    \x20\x20\x20\x20if (!takeState(await askState(atWord(), live), place)) {\n\
    \x20\x20\x20\x20\x20\x20// The heap has gone on so far, or back.\n\
    \x20\x20\x20\x20\x20\x20if (live) S.fast = true;\n\
    \x20\x20\x20\x20\x20\x20S.at = null;\n\
    \x20\x20\x20\x20\x20\x20again = true;\n\
    \x20\x20\x20\x20\x20\x20return;\n\
    \x20\x20\x20\x20}\n\
    \x20\x20\x20\x20onScreen(place, asked);\n\
    \x20\x20\x20\x20if (S.sel) await inspect(S.sel, true);\n\
    \x20\x20\x20\x20else drawRegisters();\n\
    \x20\x20}\n\
    \x20\x20let running = false,\n\
    \x20\x20\x20\x20again = false;\n\
    \x20\x20async function refresh(full) {\n\
    \x20\x20\x20\x20if (running) {\n\
    \x20\x20\x20\x20\x20\x20again = again || full;\n\
    \x20\x20\x20\x20\x20\x20return;\n\
    \x20\x20\x20\x20}\n\
    \x20\x20\x20\x20running = true;\n\
    \x20\x20\x20\x20try {\n\
    \x20\x20\x20\x20\x20\x20await look(full);\n\
    \x20\x20\x20\x20} catch (e) {\n\
    \x20\x20\x20\x20\x20\x20if (e.message !== \"key\") {\n\
    \x20\x20\x20\x20\x20\x20\x20\x20$(\"state\").className = \"pill lost\";\n\
    \x20\x20\x20\x20\x20\x20\x20\x20$(\"state\").textContent = \"no connection\";\n\
    \x20\x20\x20\x20\x20\x20\x20\x20$(\"state\").title = \"Nothing answers: heapdbg serve ends when its last session has ended\";\n\
    \x20\x20\x20\x20\x20\x20\x20\x20if (!(e instanceof TypeError && /fetch/.test(e.message))) console.error(e);\n\
    \x20\x20\x20\x20\x20\x20}\n\
    \x20\x20\x20\x20}\n\
    \x20\x20\x20\x20running = false;\n\
    \x20\x20\x20\x20if (again) {\n\
    \x20\x20\x20\x20\x20\x20again = false;\n\
    \x20\x20\x20\x20\x20\x20return refresh(true);\n\
    \x20\x20\x20\x20}\n\
    \x20\x20}\n\
    \n\
    \x20\x20function takeStatus(s) {\n\
    \x20\x20\x20\x20S.status = Object.fromEntries(s.rows.map((r) => [r[0], isNaN(r[1]) ? r[1] : +r[1]]));\n\
    \x20\x20\x20\x20S.place = S.status.place;\n\
    \x20\x20\x20\x20S.oldest = S.place - S.status.retained;\n\
    \x20\x20\x20\x20$(\"state\").classList.remove(\"lost\");\n\
    \x20\x20}\n\
    \n\
    \x20\x20// Shows the page: at first it waits for its answers for a while, so that a browser needn't lay it out twice.\n\
    \x20\x20const unveil = () => document.documentElement.classList.remove(\"early\");\n\
    \x20\x20setTimeout(unveil, 150);\n\
    \n\
    \x20\x20// Asks all that the first look needs.\n\
    \x20\x20function askFirst() {\n\
    \x20\x20\x20\x20const all = [askState(\"-\", true), ...[\"status\", \"history \" + FEW, \"classes -\"].map((line) => ask(line, true))];\n\
    \x20\x20\x20\x20Promise.all(all).catch(() => {});\n\
    \x20\x20\x20\x20return all;\n\
    \x20\x20}\n\
    \x20\x20// It is asked before anything else is done here.\n\
    \x20\x20let asked = key ? askFirst() : null;\n\
    \n\
    \x20\x20// The first look. If the heap has gone on meanwhile, another look follows.\n\
    \x20\x20async function firstLook() {\n\
    \x20\x20\x20\x20const [state, status, steps, classes] = asked ?? askFirst();\n\
    \x20\x20\x20\x20asked = null;\n\
    \x20\x20\x20\x20takeStatus(await status);\n\
    \x20\x20\x20\x20takeClasses(await classes);\n\
    \x20\x20\x20\x20takeEvents(eventsOf((await steps).text, S.place), S.status.retained <= FEW);\n\
    \x20\x20\x20\x20again = !takeState(await state, S.place) || (S.events.length > 0 && !(await steps).text.startsWith(`row ${S.place} `));\n\
    \x20\x20\x20\x20onScreen(S.place, 0);\n\
    \x20\x20\x20\x20drawRegisters();\n\
    \x20\x20}\n\
    \x20\x20async function look(full) {\n\
    \x20\x20\x20\x20if (S.place < 0) return firstLook();\n\
    \x20\x20\x20\x20// A place is shown without asking what is new: the next look does.\n\
    \x20\x20\x20\x20if (full && S.at !== null) return loadState();\n\
    \x20\x20\x20\x20if (!full) S.began = performance.now();\n\
    \x20\x20\x20\x20const was = S.status,\n\
    \x20\x20\x20\x20\x20\x20before = S.place;\n\
    \x20\x20\x20\x20takeStatus(await ask(\"status\", true));\n\
    \x20\x20\x20\x20const stepped = S.place !== before || S.status.acts !== was.acts,\n\
    \x20\x20\x20\x20\x20\x20moved = stepped || [\"gray\", \"phase\", \"unswept\"].some((x) => S.status[x] !== was[x]);\n\
    \x20\x20\x20\x20S.fast = S.place - before > Math.max(100, S.status.retained / 4);\n\
    \x20\x20\x20\x20if (S.at !== null && (S.at > S.place || S.at < S.oldest)) S.at = null;\n\
    \x20\x20\x20\x20if (S.base !== null && (S.base > S.place || S.base < S.oldest)) S.base = null;\n\
    \x20\x20\x20\x20const events = stepped ? loadEvents(S.place) : null,\n\
    \x20\x20\x20\x20\x20\x20state = full || (moved && S.at === null) ? loadState() : null;\n\
    \x20\x20\x20\x20await events;\n\
    \x20\x20\x20\x20await state;\n\
    \x20\x20\x20\x20if (!state && moved) draw();\n\
    \x20\x20\x20\x20else if (events) {\n\
    \x20\x20\x20\x20\x20\x20drawHead();\n\
    \x20\x20\x20\x20\x20\x20drawLine();\n\
    \x20\x20\x20\x20\x20\x20drawSteps();\n\
    \x20\x20\x20\x20\x20\x20drawInstances();\n\
    \x20\x20\x20\x20}\n\
    \x20\x20\x20\x20if (!state && !S.whole && !S.fast) loadWhole().catch(() => {});\n\
    \x20\x20}\n\
    \x20\x20const sampleOf = (h) => ({ bytes: +h.words[2], by: new Map(h.rows.map((r) => [r[2], +r[1]])) });\n\
    \n\
    \x20\x20// Keeps the bytes at a place for the time line, which has some hundreds.\n\
    \x20\x20function keepSample(place, h) {\n\
    \x20\x20\x20\x20S.samples.set(place, sampleOf(h));\n\
    \x20\x20\x20\x20if (S.samples.size <= 400) return;\n\
    \x20\x20\x20\x20const places = [...S.samples.keys()].sort((a, b) => a - b);\n\
    \x20\x20\x20\x20places.forEach((p, i) => i % 2 && p !== S.place && S.samples.delete(p));\n\
    \x20\x20}\n\
    \x20\x20async function sampleMore() {\n\
    \x20\x20\x20\x20if (running || document.hidden || S.place < 0 || S.fast) return;\n\
    \x20\x20\x20\x20const n = 96,\n\
    \x20\x20\x20\x20\x20\x20span = S.place - S.oldest;\n\
    \x20\x20\x20\x20if (span < 2) return;\n\
    \x20\x20\x20\x20const wanted = [...S.cycles.flatMap((c) => [c.to === null ? S.place : c.to - 1, c.end === null ? S.place : c.end]).filter((p) => p >= S\n\
    \x20\x20\x20\x20\x20\x20.oldest).slice(-40)];\n\
    \x20\x20\x20\x20const enough = (p) => S.samples.has(p) || [...S.samples.keys()].some((k) => Math.abs(k - p) < span / n / 2);\n\
    \x20\x20\x20\x20for (let step = 32; step >= 1; step /= 2)\n\
    \x20\x20\x20\x20\x20\x20for (let i = 0; i <= n; i += step) wanted.push(Math.round(S.oldest + span * i / n));\n\
    \x20\x20\x20\x20for (const [i, p] of wanted.entries()) {\n\
    \x20\x20\x20\x20\x20\x20if (S.samples.has(p) || (i >= wanted.length - 200 && enough(p))) continue;\n\
    \x20\x20\x20\x20\x20\x20const epoch = S.epoch,\n\
    \x20\x20\x20\x20\x20\x20\x20\x20h = await ask(\"histogram @\" + p, true).catch(() => null);\n\
    \x20\x20\x20\x20\x20\x20if (!h || !h.ok || epoch !== S.epoch) return;\n\
    \x20\x20\x20\x20\x20\x20keepSample(p, h);\n\
    \x20\x20\x20\x20\x20\x20giveColors();\n\
    \x20\x20\x20\x20\x20\x20drawLine();\n\
    \x20\x20\x20\x20\x20\x20if (h.ms > 30) await new Promise((r) => setTimeout(r, h.ms * 4));\n\
    \x20\x20\x20\x20\x20\x20if (running) return;\n\
    \x20\x20\x20\x20}\n\
    \x20\x20}\n\
    \n\
    \x20\x20// Shows the heap at a place, or follows it if that is the newest.\n\
    \x20\x20function go(place) {\n\
    \x20\x20\x20\x20place = Math.max(S.oldest, Math.min(S.place, Math.round(place)));\n\
    \x20\x20\x20\x20const to = place >= S.place ? null : place;\n\
    \x20\x20\x20\x20if (to === S.at) return;\n\
    \x20\x20\x20\x20S.at = to;\n\
    \x20\x20\x20\x20if (S.more || isFar($(\"steps\"))) $(\"steps\").scrollTop = S.more = 0;\n\
    \x20\x20\x20\x20S.began = performance.now();\n\
    \x20\x20\x20\x20refresh(true);\n\
    \x20\x20\x20\x20drawLine();\n\
    \x20\x20\x20\x20drawHead();\n\
    \x20\x20}\n\
    \n\
    \x20\x20function follow() {\n\
    \x20\x20\x20\x20S.at = null;\n\
    \x20\x20\x20\x20S.began = performance.now();\n\
    \x20\x20\x20\x20refresh(true);\n\
    \x20\x20}\n\
    \n\
    \x20\x20// Compares with a place, or with none.\n\
    \x20\x20function compare(base) {\n\
    \x20\x20\x20\x20S.base = base;\n\
    \x20\x20\x20\x20if (base === null && S.sort[0].startsWith(\"d\")) S.sort = [\"bytes\", -1];\n\
    \x20\x20\x20\x20else if (base !== null && S.sort[0] === \"bytes\") S.sort = [\"dbytes\", -1];\n\
    \x20\x20\x20\x20S.began = performance.now();\n\
    \x20\x20\x20\x20refresh(true);\n\
    \x20\x20}\n\
    \x20\x20// The ends of the cycles that are over, with their sweeps, among the retained places.\n\
    \x20\x20const ends = () => S.cycles.filter((c) => c.to !== null && c.end >= S.oldest).map((c) => c.end);\n\
    \n\
    \x20\x20function betweenCycles() {\n\
    \x20\x20\x20\x20const all = ends();\n\
    \x20\x20\x20\x20if (!all.length) return;\n\
    \x20\x20\x20\x20const [from, to] = all.length > 1 ? all.slice(-2) : [all[0], S.place];\n\
    \x20\x20\x20\x20S.at = to >= S.place ? null : to;\n\
    \x20\x20\x20\x20compare(from);\n\
    \x20\x20}\n\
    \n\
    \x20\x20// ---- head\n\
    \x20\x20function drawHead() {\n\
    \x20\x20\x20\x20const live = S.at === null;\n\
    \x20\x20\x20\x20$(\"state\").className = \"pill \" + (live ? \"live\" : \"past\");\n\
    \x20\x20\x20\x20$(\"state\").textContent = live ? S.fast ? \"live, changes fast\" : \"live\" : \"past\";\n\
    \x20\x20\x20\x20$(\"state\").title = live ? S.fast ? \"The heap changes so fast that each part is of a moment of its own\" :\n\
    \x20\x20\x20\x20\x20\x20\"This is the heap as it is now, and the page follows it\" : \"This is the heap as it was. L follows it again\";\n\
    \x20\x20\x20\x20$(\"place\").textContent = \"@\" + num(atPlace());\n\
    \x20\x20\x20\x20document.title = \"heapdbg @\" + num(atPlace());\n\
    \x20\x20\x20\x20$(\"span\").title = \"A place is how many steps led to a state; the newest are retained\";\n\
    \x20\x20\x20\x20$(\"span\").textContent = live ? `of ${num(S.status.retained || 0)} retained` : `${num(S.place - S.at)} steps ago`;\n\
    \x20\x20\x20\x20$(\"objects\").textContent = S.total ? num(S.total.objects) : \"\xe2\x80\x93\";\n\
    \x20\x20\x20\x20$(\"bytes\").textContent = S.total ? num(S.total.bytes) : \"\xe2\x80\x93\";\n\
    \x20\x20\x20\x20$(\"lostb\").textContent = num(S.lost || 0);\n\
    \x20\x20\x20\x20const st = S.status,\n\
    \x20\x20\x20\x20\x20\x20p = $(\"phase\");\n\
    \x20\x20\x20\x20p.hidden = !live;\n\
    \x20\x20\x20\x20if (st.phase === \"marking\") {\n\
    \x20\x20\x20\x20\x20\x20p.className = \"pill opt mark\";\n\
    \x20\x20\x20\x20\x20\x20p.textContent = `marking: ${num(st.gray)} gray` + (st.undrained ? `, ${num(st.undrained)} to drain` : \"\");\n\
    \x20\x20\x20\x20\x20\x20p.title = \"A cycle runs: gray objects are still to be looked at, and entries of the log to be drained\";\n\
    \x20\x20\x20\x20} else if (st.unswept) {\n\
    \x20\x20\x20\x20\x20\x20p.className = \"pill opt sweep\";\n\
    \x20\x20\x20\x20\x20\x20p.textContent = `${num(st.unswept)} regions to sweep`;\n\
    \x20\x20\x20\x20\x20\x20p.title = \"A cycle has found what is dead; these regions still hold it\";\n\
    \x20\x20\x20\x20} else {\n\
    \x20\x20\x20\x20\x20\x20p.className = \"pill opt\";\n\
    \x20\x20\x20\x20\x20\x20p.textContent = \"no cycle\";\n\
    \x20\x20\x20\x20\x20\x20p.title = \"No cycle marks, and no region waits to be swept\";\n\
    \x20\x20\x20\x20}\n\
    \x20\x20\x20\x20$(\"golive\").disabled = live;\n\
    \x20\x20\x20\x20const box = $(\"basebox\");\n\
    \x20\x20\x20\x20box.textContent = \"\";\n\
    \x20\x20\x20\x20if (S.base !== null) {\n\
    \x20\x20\x20\x20\x20\x20const b = el(\"button\", \"btn\", `compared with @${num(S.base)} \xe2\x9c\x95`);\n\
    \x20\x20\x20\x20\x20\x20b.title = \"Stop comparing (B)\";\n\
    \x20\x20\x20\x20\x20\x20b.onclick = () => compare(null);\n\
    \x20\x20\x20\x20\x20\x20box.append(b);\n\
    \x20\x20\x20\x20}\n\
    \x20\x20\x20\x20$(\"setbase\").disabled = S.base === atPlace();\n\
    \x20\x20\x20\x20$(\"setbase\").hidden = S.base !== null && S.base !== atPlace();\n\
    \x20\x20\x20\x20$(\"cycles\").disabled = !ends().length;\n\
    \x20\x20}\n\
    \n\
    \x20\x20// ---- time line\n\
    \x20\x20function fit(canvas, w, h) {\n\
    \x20\x20\x20\x20const r = devicePixelRatio || 1,\n\
    \x20\x20\x20\x20\x20\x20c = canvas.getContext(\"2d\");\n\
    \x20\x20\x20\x20if (canvas.width !== Math.round(w * r) || canvas.height !== Math.round(h * r)) {\n\
    \x20\x20\x20\x20\x20\x20canvas.width = Math.round(w * r);\n\
    \x20\x20\x20\x20\x20\x20canvas.height = Math.round(h * r);\n\
    \x20\x20\x20\x20\x20\x20canvas.style.width = w + \"px\";\n\
    \x20\x20\x20\x20\x20\x20canvas.style.height = h + \"px\";\n\
    \x20\x20\x20\x20}\n\
    \x20\x20\x20\x20c.setTransform(r, 0, 0, r, 0, 0);\n\
    \x20\x20\x20\x20c.clearRect(0, 0, w, h);\n\
    \x20\x20\x20\x20return c;\n\
    \x20\x20}\n\
    \x20\x20const LINE = { top: 18, bottom: 80, strip: 87, high: 108, w: 0 };\n\
    \x20\x20// What is drawn of the time line, while the handle moves, only if something of it is new: the strip of all steps, and all that stays.\n\
    \x20\x20const layer = () => ({ canvas: document.createElement(\"canvas\"), drawn: \"\" });\n\
    \x20\x20const STRIP = layer(),\n\
    \x20\x20\x20\x20LAYER = layer();\n\
    \x20\x20const xOf = (p, w) => 8 + (w - 16) * (S.place === S.oldest ? 1 : (p - S.oldest) / (S.place - S.oldest));\n\
    \n\
    \x20\x20// Draws a layer of the time line, if what it shows is new.\n\
    \x20\x20function drawLayer(it, w, shows, draw) {\n\
    \x20\x20\x20\x20const now = [w, devicePixelRatio, S.place, S.oldest, S.first, S.events.length, ...shows].join();\n\
    \x20\x20\x20\x20if (now === it.drawn) return it.canvas;\n\
    \x20\x20\x20\x20it.drawn = now;\n\
    \x20\x20\x20\x20draw(fit(it.canvas, w, LINE.high), w);\n\
    \x20\x20\x20\x20return it.canvas;\n\
    \x20\x20}\n\
    \n\
    \x20\x20// Makes all canvases as large as they will be, which takes long, before there is anything to draw.\n\
    \x20\x20function fitAll() {\n\
    \x20\x20\x20\x20if (M.box.w > 0) fit($(\"map\"), M.box.w, M.box.h);\n\
    \x20\x20\x20\x20if (LINE.w > 0) fit($(\"line\"), LINE.w, LINE.high);\n\
    \x20\x20}\n\
    \n\
    \x20\x20function drawStill(c, w) {\n\
    \x20\x20\x20\x20c.font = \"11px \" + css(\"--mono\");\n\
    \x20\x20\x20\x20c.textBaseline = \"middle\";\n\
    \x20\x20\x20\x20drawCycles(c, w);\n\
    \x20\x20\x20\x20drawBytes(c, w);\n\
    \x20\x20\x20\x20c.fillStyle = css(\"--line\");\n\
    \x20\x20\x20\x20c.fillRect(8, LINE.bottom, w - 16, 1);\n\
    \x20\x20\x20\x20drawLife(c, w);\n\
    \x20\x20\x20\x20drawWrites(c, w);\n\
    \x20\x20\x20\x20drawPins(c, w);\n\
    \x20\x20}\n\
    \n\
    \x20\x20function drawCycles(c, w) {\n\
    \x20\x20\x20\x20const ink = css(\"--amber\");\n\
    \x20\x20\x20\x20for (const { from, to } of S.cycles) {\n\
    \x20\x20\x20\x20\x20\x20const a = xOf(Math.max(S.oldest, from === null ? S.oldest : from), w),\n\
    \x20\x20\x20\x20\x20\x20\x20\x20b = xOf(to === null ? S.place : to, w);\n\
    \x20\x20\x20\x20\x20\x20c.fillStyle = \"rgba(239,177,24,.2)\";\n\
    \x20\x20\x20\x20\x20\x20c.fillRect(a, LINE.top - 2, Math.max(2, b - a), LINE.bottom - LINE.top + 2);\n\
    \x20\x20\x20\x20\x20\x20c.fillStyle = ink;\n\
    \x20\x20\x20\x20\x20\x20c.fillRect(a, LINE.top - 3, Math.max(2, b - a), 2);\n\
    \x20\x20\x20\x20}\n\
    \x20\x20}\n\
    \n\
    \x20\x20// One band for each class that has a colour, the one with most bytes below, and one for all others.\n\
    \x20\x20function drawBytes(c, w) {\n\
    \x20\x20\x20\x20const pts = [...S.samples].filter(([p]) => p >= S.oldest && p <= S.place).sort((a, b) => a[0] - b[0]),\n\
    \x20\x20\x20\x20\x20\x20only = S.klass,\n\
    \x20\x20\x20\x20\x20\x20most = Math.max(1, ...pts.map((x) => only ? x[1].by.get(only) || 0 : x[1].bytes)),\n\
    \x20\x20\x20\x20\x20\x20y = (v) => LINE.bottom - (LINE.bottom - LINE.top) * v / most;\n\
    \x20\x20\x20\x20if (!pts.length) return;\n\
    \x20\x20\x20\x20const names = only ? [only] : [...S.color.keys()],\n\
    \x20\x20\x20\x20\x20\x20floor = new Map(pts.map(([p]) => [p, 0]));\n\
    \x20\x20\x20\x20for (const name of only ? names : [...names, null]) {\n\
    \x20\x20\x20\x20\x20\x20const upper = new Map();\n\
    \x20\x20\x20\x20\x20\x20for (const [p, v] of pts) {\n\
    \x20\x20\x20\x20\x20\x20\x20\x20let rest = v.bytes;\n\
    \x20\x20\x20\x20\x20\x20\x20\x20if (name === null)\n\
    \x20\x20\x20\x20\x20\x20\x20\x20\x20\x20for (const n of names) rest -= v.by.get(n) || 0;\n\
    \x20\x20\x20\x20\x20\x20\x20\x20upper.set(p, floor.get(p) + (name === null ? rest : v.by.get(name) || 0));\n\
    \x20\x20\x20\x20\x20\x20}\n\
    \x20\x20\x20\x20\x20\x20c.beginPath();\n\
    \x20\x20\x20\x20\x20\x20pts.forEach(([p], i) => i ? c.lineTo(xOf(p, w), y(upper.get(p))) : c.moveTo(xOf(p, w), y(upper.get(p))));\n\
    \x20\x20\x20\x20\x20\x20for (let i = pts.length - 1; i >= 0; i--) c.lineTo(xOf(pts[i][0], w), y(floor.get(pts[i][0])));\n\
    \x20\x20\x20\x20\x20\x20c.closePath();\n\
    \x20\x20\x20\x20\x20\x20c.globalAlpha = .78;\n\
    \x20\x20\x20\x20\x20\x20c.fillStyle = name === null ? OTHER : colorOf(name);\n\
    \x20\x20\x20\x20\x20\x20c.fill();\n\
    \x20\x20\x20\x20\x20\x20c.globalAlpha = 1;\n\
    \x20\x20\x20\x20\x20\x20for (const [p, v] of upper) floor.set(p, v);\n\
    \x20\x20\x20\x20}\n\
    \x20\x20\x20\x20c.fillStyle = css(\"--ink2\");\n\
    \x20\x20\x20\x20c.textAlign = \"left\";\n\
    \x20\x20\x20\x20c.fillText(num(most) + \" bytes\" + (only ? \" of \" + only : \"\"), 10, 8);\n\
    \x20\x20}\n\
    \n\
    \x20\x20// A column for each pixel, with what its steps did.\n\
    \x20\x20function drawStrip(c, w) {\n\
    \x20\x20\x20\x20const columns = Math.max(1, Math.floor(w - 16)),\n\
    \x20\x20\x20\x20\x20\x20per = (S.place - S.oldest) / columns,\n\
    \x20\x20\x20\x20\x20\x20counts = new Int32Array(COLORS.length);\n\
    \x20\x20\x20\x20for (let i = 0; i < columns; i++) {\n\
    \x20\x20\x20\x20\x20\x20const a = Math.floor(S.oldest + per * i) + 1,\n\
    \x20\x20\x20\x20\x20\x20\x20\x20b = Math.max(a, Math.floor(S.oldest + per * (i + 1)));\n\
    \x20\x20\x20\x20\x20\x20if (b < S.first) continue;\n\
    \x20\x20\x20\x20\x20\x20counts.fill(0);\n\
    \x20\x20\x20\x20\x20\x20for (let k = Math.max(0, a - S.first); k <= Math.min(b - S.first, S.events.length - 1); k++) counts[S.events[k].color]++;\n\
    \x20\x20\x20\x20\x20\x20let y = LINE.strip;\n\
    \x20\x20\x20\x20\x20\x20for (let color = 0; color < COLORS.length; color++) {\n\
    \x20\x20\x20\x20\x20\x20\x20\x20const tall = 8 * counts[color] / (b - a + 1);\n\
    \x20\x20\x20\x20\x20\x20\x20\x20if (!tall) continue;\n\
    \x20\x20\x20\x20\x20\x20\x20\x20c.fillStyle = COLORS[color];\n\
    \x20\x20\x20\x20\x20\x20\x20\x20c.fillRect(8 + i, y, 1, tall);\n\
    \x20\x20\x20\x20\x20\x20\x20\x20y += tall;\n\
    \x20\x20\x20\x20\x20\x20}\n\
    \x20\x20\x20\x20}\n\
    \x20\x20}\n\
    \n\
    \x20\x20// When the picked object was made, and written.\n\
    \x20\x20function drawLife(c, w) {\n\
    \x20\x20\x20\x20const o = S.sel && objectAt(S.sel);\n\
    \x20\x20\x20\x20if (!o) return;\n\
    \x20\x20\x20\x20const made = bornAt(o, S.shown),\n\
    \x20\x20\x20\x20\x20\x20later = (S.born.get(o.w) || []).find((p) => p > S.shown),\n\
    \x20\x20\x20\x20\x20\x20from = xOf(made ?? S.oldest, w);\n\
    \x20\x20\x20\x20c.fillStyle = colorOf(o.name);\n\
    \x20\x20\x20\x20c.fillRect(from, 82, Math.max(2, xOf(later ?? S.place, w) - from), 4);\n\
    \x20\x20\x20\x20c.fillStyle = css(\"--ink\");\n\
    \x20\x20\x20\x20for (const e of S.events)\n\
    \x20\x20\x20\x20\x20\x20if (e.w === o.w && e.kind !== \"new\" && e.p >= (made ?? 0) && e.p < (later ?? Infinity)) c.fillRect(xOf(e.p, w) - .5, 81, 1.5, 6);\n\
    \x20\x20}\n\
    \n\
    \x20\x20// Where the picked field was written: a mark for each pixel at which it was.\n\
    \x20\x20function drawWrites(c, w) {\n\
    \x20\x20\x20\x20let last = -1;\n\
    \x20\x20\x20\x20c.fillStyle = css(\"--write\");\n\
    \x20\x20\x20\x20for (const { p } of S.watch ? S.watch.rows : []) {\n\
    \x20\x20\x20\x20\x20\x20const x = Math.round(xOf(p, w));\n\
    \x20\x20\x20\x20\x20\x20if (p < S.oldest || x === last) continue;\n\
    \x20\x20\x20\x20\x20\x20last = x;\n\
    \x20\x20\x20\x20\x20\x20c.globalAlpha = .5;\n\
    \x20\x20\x20\x20\x20\x20c.fillRect(x - .5, LINE.top, 1, LINE.bottom - LINE.top);\n\
    \x20\x20\x20\x20\x20\x20c.globalAlpha = 1;\n\
    \x20\x20\x20\x20\x20\x20c.beginPath();\n\
    \x20\x20\x20\x20\x20\x20for (const [dx, dy] of [[-4, 0], [0, -4], [4, 0], [0, 4]]) c.lineTo(x + dx, LINE.bottom - 5 + dy);\n\
    \x20\x20\x20\x20\x20\x20c.fill();\n\
    \x20\x20\x20\x20}\n\
    \x20\x20}\n\
    \n\
    \x20\x20// Returns the write of the picked field whose mark is nearest to a point, if one is next to it, and how many others are in its pixel.\n\
    \x20\x20function writeAt(x, w) {\n\
    \x20\x20\x20\x20let near = null,\n\
    \x20\x20\x20\x20\x20\x20most = 4.5,\n\
    \x20\x20\x20\x20\x20\x20others = 0;\n\
    \x20\x20\x20\x20for (const it of S.watch ? S.watch.rows : []) {\n\
    \x20\x20\x20\x20\x20\x20const far = it.p < S.oldest ? Infinity : Math.abs(Math.round(xOf(it.p, w)) - x);\n\
    \x20\x20\x20\x20\x20\x20if (far > most) continue;\n\
    \x20\x20\x20\x20\x20\x20others = far === most && near ? others + 1 : 0;\n\
    \x20\x20\x20\x20\x20\x20most = far;\n\
    \x20\x20\x20\x20\x20\x20near = it;\n\
    \x20\x20\x20\x20}\n\
    \x20\x20\x20\x20return near && { ...near, others };\n\
    \x20\x20}\n\
    \n\
    \x20\x20// Says what a write changed.\n\
    \x20\x20function writeText({ p, id, old, now, others }) {\n\
    \x20\x20\x20\x20const more = others ? `\\nand ${num(others)} more here` : \"\";\n\
    \x20\x20\x20\x20return `@${num(p)} ${old} \xe2\x86\x92 ${now}\\n${S.watch.of}${S.watch.dotted} of ${id}${more}`;\n\
    \x20\x20}\n\
    \n\
    \x20\x20function drawPins(c, w) {\n\
    \x20\x20\x20\x20c.fillStyle = css(\"--ink3\");\n\
    \x20\x20\x20\x20c.textAlign = \"left\";\n\
    \x20\x20\x20\x20c.fillText(\"@\" + num(S.oldest), 8, 102);\n\
    \x20\x20\x20\x20c.textAlign = \"right\";\n\
    \x20\x20\x20\x20c.fillText(\"@\" + num(S.place), w - 8, 102);\n\
    \x20\x20\x20\x20c.textAlign = \"center\";\n\
    \x20\x20\x20\x20for (const r of S.pins)\n\
    \x20\x20\x20\x20\x20\x20if (r[2] === \"held\" && +r[1] >= S.oldest) {\n\
    \x20\x20\x20\x20\x20\x20\x20\x20const x = xOf(+r[1], w);\n\
    \x20\x20\x20\x20\x20\x20\x20\x20c.fillRect(x - .5, LINE.top - 4, 1, LINE.strip - LINE.top + 12);\n\
    \x20\x20\x20\x20\x20\x20\x20\x20c.fillText(\"pin \" + r[0], Math.max(90, Math.min(w - 90, x)), 102);\n\
    \x20\x20\x20\x20\x20\x20}\n\
    \x20\x20\x20\x20let free = 110;\n\
    \x20\x20\x20\x20c.fillStyle = css(\"--amber\");\n\
    \x20\x20\x20\x20for (const p of ends()) {\n\
    \x20\x20\x20\x20\x20\x20const x = xOf(p, w),\n\
    \x20\x20\x20\x20\x20\x20\x20\x20text = \"cycle ends @\" + num(p),\n\
    \x20\x20\x20\x20\x20\x20\x20\x20half = c.measureText(text).width / 2;\n\
    \x20\x20\x20\x20\x20\x20c.fillRect(x - .5, LINE.strip + 8, 1, 3);\n\
    \x20\x20\x20\x20\x20\x20if (x - half < free || x + half > w - 90) continue;\n\
    \x20\x20\x20\x20\x20\x20c.fillText(text, x, 102);\n\
    \x20\x20\x20\x20\x20\x20free = x + half + 10;\n\
    \x20\x20\x20\x20}\n\
    \x20\x20}\n\
    \n\
    \x20\x20function drawLine() {\n\
    \x20\x20\x20\x20const canvas = $(\"line\"),\n\
    \x20\x20\x20\x20\x20\x20w = LINE.w;\n\
    \x20\x20\x20\x20if (S.place < 0 || w < 100) return;\n\
    \x20\x20\x20\x20const c = fit(canvas, w, LINE.high);\n\
    \x20\x20\x20\x20const o = S.sel && objectAt(S.sel),\n\
    \x20\x20\x20\x20\x20\x20life = o ? [S.sel, o.name, bornAt(o, S.shown), S.shown] : [],\n\
    \x20\x20\x20\x20\x20\x20writes = S.watch ? S.watch.turn : 0;\n\
    \x20\x20\x20\x20if (S.at === null) {\n\
    \x20\x20\x20\x20\x20\x20drawStrip(c, w);\n\
    \x20\x20\x20\x20\x20\x20drawStill(c, w);\n\
    \x20\x20\x20\x20} else {\n\
    \x20\x20\x20\x20\x20\x20c.drawImage(drawLayer(STRIP, w, [], drawStrip), 0, 0, w, LINE.high);\n\
    \x20\x20\x20\x20\x20\x20c.drawImage(drawLayer(LAYER, w, [S.samples.size, S.epoch, S.klass, S.color.size, css(\"--ink\"), writes, ...S.pins, ...life], drawStill), 0, 0, w, LINE.high);\n\
    \x20\x20\x20\x20}\n\
    \x20\x20\x20\x20c.font = \"11px \" + css(\"--mono\");\n\
    \x20\x20\x20\x20c.textBaseline = \"middle\";\n\
    \x20\x20\x20\x20c.textAlign = \"left\";\n\
    \x20\x20\x20\x20const flag = (p, color, name) => {\n\
    \x20\x20\x20\x20\x20\x20const x = xOf(p, w);\n\
    \x20\x20\x20\x20\x20\x20c.fillStyle = color;\n\
    \x20\x20\x20\x20\x20\x20c.fillRect(x - .75, 3, 1.5, LINE.strip + 6);\n\
    \x20\x20\x20\x20\x20\x20const t = name + num(p),\n\
    \x20\x20\x20\x20\x20\x20\x20\x20tw = c.measureText(t).width + 10,\n\
    \x20\x20\x20\x20\x20\x20\x20\x20left = Math.max(0, Math.min(w - tw, x - tw / 2));\n\
    \x20\x20\x20\x20\x20\x20c.beginPath();\n\
    \x20\x20\x20\x20\x20\x20c.roundRect(left, 0, tw, 15, 3);\n\
    \x20\x20\x20\x20\x20\x20c.fill();\n\
    \x20\x20\x20\x20\x20\x20c.fillStyle = css(\"--panel\");\n\
    \x20\x20\x20\x20\x20\x20c.fillText(t, left + 5, 8);\n\
    \x20\x20\x20\x20};\n\
    \x20\x20\x20\x20if (S.base !== null) {\n\
    \x20\x20\x20\x20\x20\x20const a = xOf(S.base, w),\n\
    \x20\x20\x20\x20\x20\x20\x20\x20b = xOf(atPlace(), w);\n\
    \x20\x20\x20\x20\x20\x20c.fillStyle = \"rgba(168,106,0,.10)\";\n\
    \x20\x20\x20\x20\x20\x20c.fillRect(Math.min(a, b), LINE.top, Math.abs(b - a), LINE.bottom - LINE.top);\n\
    \x20\x20\x20\x20\x20\x20flag(S.base, css(\"--amber\"), \"from @\");\n\
    \x20\x20\x20\x20}\n\
    \x20\x20\x20\x20flag(atPlace(), S.at === null ? css(\"--green\") : css(\"--accent\"), \"@\");\n\
    \x20\x20\x20\x20for (const [name, value] of [[\"min\", S.oldest], [\"max\", S.place], [\"now\", atPlace()]]) canvas.setAttribute(\"aria-value\" + name, value);\n\
    \x20\x20\x20\x20const here = S.watch && S.watch.rows.find((it) => it.p === atPlace());\n\
    \x20\x20\x20\x20canvas.toggleAttribute(\"aria-valuetext\", Boolean(here));\n\
    \x20\x20\x20\x20if (here) canvas.setAttribute(\"aria-valuetext\", writeText({ ...here, others: 0 }));\n\
    \x20\x20}\n\
    \n\
    \x20\x20// The place below the pointer, or the write of the picked field, or the end of a cycle, that is next to it; and that write.\n\
    \x20\x20function spotAt(e) {\n\
    \x20\x20\x20\x20const r = $(\"line\").getBoundingClientRect(),\n\
    \x20\x20\x20\x20\x20\x20x = e.clientX - r.left,\n\
    \x20\x20\x20\x20\x20\x20t = (x - 8) / (r.width - 16),\n\
    \x20\x20\x20\x20\x20\x20write = writeAt(x, r.width),\n\
    \x20\x20\x20\x20\x20\x20near = write ? write.p : ends().find((p) => Math.abs(xOf(p, r.width) - x) < 4);\n\
    \x20\x20\x20\x20return { write, place: near ?? Math.round(S.oldest + (S.place - S.oldest) * Math.max(0, Math.min(1, t))) };\n\
    \x20\x20}\n\
    \x20\x20const placeAt = (e) => spotAt(e).place;\n\
    \n\
    \x20\x20// ---- rows\n\
    \x20\x20// Tells whether a list isn't at its beginning.\n\
    \x20\x20const isFar = (box) => box.hasAttribute(\"data-far\");\n\
    \n\
    \x20\x20// Draws anew, and leaves the focus on the row that had it.\n\
    \x20\x20function keepFocus(box, draw) {\n\
    \x20\x20\x20\x20const on = document.activeElement,\n\
    \x20\x20\x20\x20\x20\x20name = box.contains(on) ? on.dataset.row : null;\n\
    \x20\x20\x20\x20draw();\n\
    \x20\x20\x20\x20if (name) rowNamed(box, name)?.focus();\n\
    \x20\x20}\n\
    \x20\x20const rowNamed = (box, name) => [...box.querySelectorAll(\"[data-row]\")].find((r) => r.dataset.row === name);\n\
    \n\
    \x20\x20function rowOf(name, cls, act) {\n\
    \x20\x20\x20\x20const tr = el(\"tr\", cls);\n\
    \x20\x20\x20\x20tr.tabIndex = 0;\n\
    \x20\x20\x20\x20tr.dataset.row = name;\n\
    \x20\x20\x20\x20tr.onclick = act;\n\
    \x20\x20\x20\x20return tr;\n\
    \x20\x20}\n\
    \n\
    \x20\x20function swatch(color) {\n\
    \x20\x20\x20\x20const sw = el(\"i\", \"sw\");\n\
    \x20\x20\x20\x20sw.style.background = color;\n\
    \x20\x20\x20\x20return sw;\n\
    \x20\x20}\n\
    \n\
    \x20\x20function link(text, title, act) {\n\
    \x20\x20\x20\x20const a = el(\"a\", \"ref\", text);\n\
    \x20\x20\x20\x20a.tabIndex = 0;\n\
    \x20\x20\x20\x20a.setAttribute(\"role\", \"link\");\n\
    \x20\x20\x20\x20a.title = title;\n\
    \x20\x20\x20\x20a.onclick = (e) => {\n\
    \x20\x20\x20\x20\x20\x20e.stopPropagation();\n\
    \x20\x20\x20\x20\x20\x20act();\n\
    \x20\x20\x20\x20};\n\
    \x20\x20\x20\x20return a;\n\
    \x20\x20}\n\
    \x20\x20const placeLink = (p) => link(\"@\" + num(p), \"Show the heap at this place\", () => go(p));\n\
    \n\
    \x20\x20function idLink(id, plain) {\n\
    \x20\x20\x20\x20const o = objectAt(id),\n\
    \x20\x20\x20\x20\x20\x20a = link(\"\", o ? o.name : \"\", () => pick(id));\n\
    \x20\x20\x20\x20if (o && !plain) a.append(swatch(colorOf(o.name)));\n\
    \x20\x20\x20\x20a.append(id);\n\
    \x20\x20\x20\x20return a;\n\
    \x20\x20}\n\
    \n\
    \x20\x20// Draws a bar below a number: a share of the widest one, in the colour of a class.\n\
    \x20\x20function barred(cell, share, name) {\n\
    \x20\x20\x20\x20const i = el(\"i\");\n\
    \x20\x20\x20\x20i.style.width = 44 * share + \"px\";\n\
    \x20\x20\x20\x20i.style.background = colorOf(name);\n\
    \x20\x20\x20\x20cell.append(i);\n\
    \x20\x20\x20\x20return cell;\n\
    \x20\x20}\n\
    \n\
    \x20\x20// How much of the whole heap some bytes are, and that in words.\n\
    \x20\x20const shareOf = (bytes) => S.total && S.total.bytes ? Math.min(1, bytes / S.total.bytes) : 0;\n\
    \x20\x20const percent = (bytes) => (100 * shareOf(bytes)).toFixed(shareOf(bytes) < .1 ? 1 : 0) + \" % of the bytes of the heap\";\n\
    \n\
    \x20\x20// ---- classes\n\
    \x20\x20const COLUMNS = [\n\
    \x20\x20\x20\x20[\"name\", \"Class\", \"\"],\n\
    \x20\x20\x20\x20[\"objects\", \"Objects\", \"\"],\n\
    \x20\x20\x20\x20[\"bytes\", \"Bytes\", \"Of their slots, as a dump has them\"],\n\
    \x20\x20\x20\x20[\"lost\", \"Unreached\", \"Objects that no register reaches: the next cycle frees them\"],\n\
    \x20\x20\x20\x20[\"dobjects\", \"\xce\x94 obj\", \"How many more objects than at the place that this is compared with\"],\n\
    \x20\x20\x20\x20[\"dbytes\", \"\xce\x94 bytes\", \"How many more bytes than at the place that this is compared with\"]\n\
    \x20\x20];\n\
    \n\
    \x20\x20function classRows() {\n\
    \x20\x20\x20\x20const names = new Set([...S.hist.map((r) => r.name), ...S.growth.keys()]),\n\
    \x20\x20\x20\x20\x20\x20have = new Map(S.hist.map((r) => [r.name, r])),\n\
    \x20\x20\x20\x20\x20\x20rows = [...names].map((name) => {\n\
    \x20\x20\x20\x20\x20\x20\x20\x20const h = have.get(name) || { objects: 0, bytes: 0 },\n\
    \x20\x20\x20\x20\x20\x20\x20\x20\x20\x20d = S.growth.get(name);\n\
    \x20\x20\x20\x20\x20\x20\x20\x20return { name, objects: h.objects, bytes: h.bytes, lost: S.garbage.get(name) || 0, dobjects: d ? d.objects : 0, dbytes: d ? d.bytes : 0 };\n\
    \x20\x20\x20\x20\x20\x20}),\n\
    \x20\x20\x20\x20\x20\x20[by, dir] = S.sort;\n\
    \x20\x20\x20\x20return rows.sort((a, b) => (by === \"name\" ? a.name.localeCompare(b.name) : a[by] - b[by]) * dir || b.bytes - a.bytes || a.name.localeCompare(b\n\
    \x20\x20\x20\x20\x20\x20.name));\n\
    \x20\x20}\n\
    \x20\x20const signed = (n) => (n > 0 ? \"+\" : n < 0 ? \"\xe2\x88\x92\" : \"\xc2\xb1\") + num(Math.abs(n));\n\
    \n\
    \x20\x20function drawClasses() {\n\
    \x20\x20\x20\x20const columns = S.base === null ? COLUMNS.slice(0, 4) : COLUMNS,\n\
    \x20\x20\x20\x20\x20\x20head = el(\"tr\");\n\
    \x20\x20\x20\x20for (const [k, t, title] of columns) {\n\
    \x20\x20\x20\x20\x20\x20const th = el(\"th\", k === \"lost\" ? k : \"\"),\n\
    \x20\x20\x20\x20\x20\x20\x20\x20b = el(\"button\", \"\", t);\n\
    \x20\x20\x20\x20\x20\x20th.title = title;\n\
    \x20\x20\x20\x20\x20\x20b.dataset.row = k;\n\
    \x20\x20\x20\x20\x20\x20if (S.sort[0] === k) th.setAttribute(\"aria-sort\", S.sort[1] < 0 ? \"descending\" : \"ascending\");\n\
    \x20\x20\x20\x20\x20\x20b.onclick = () => {\n\
    \x20\x20\x20\x20\x20\x20\x20\x20S.sort = S.sort[0] === k ? [k, -S.sort[1]] : [k, k === \"name\" ? 1 : -1];\n\
    \x20\x20\x20\x20\x20\x20\x20\x20drawClasses();\n\
    \x20\x20\x20\x20\x20\x20};\n\
    \x20\x20\x20\x20\x20\x20th.append(b);\n\
    \x20\x20\x20\x20\x20\x20head.append(th);\n\
    \x20\x20\x20\x20}\n\
    \x20\x20\x20\x20$(\"classes\").classList.toggle(\"compared\", S.base !== null);\n\
    \x20\x20\x20\x20keepFocus($(\"classes\"), () => {\n\
    \x20\x20\x20\x20\x20\x20$(\"classes\").tHead.replaceChildren(head);\n\
    \x20\x20\x20\x20\x20\x20const rows = classRows(),\n\
    \x20\x20\x20\x20\x20\x20\x20\x20most = Math.max(1, ...rows.map((r) => r.bytes));\n\
    \x20\x20\x20\x20\x20\x20$(\"classes\").tBodies[0].replaceChildren(...rows.map((r) => classRow(r, most)));\n\
    \x20\x20\x20\x20});\n\
    \x20\x20\x20\x20$(\"classnote\").textContent = S.base === null ? (S.hist.length ? \"\" : \"no object yet\") : S.base <= S.shown ? `growth since @${num(S.base)}` :\n\
    \x20\x20\x20\x20\x20\x20`less what came until @${num(S.base)}`;\n\
    \x20\x20}\n\
    \n\
    \x20\x20function classRow(r, most) {\n\
    \x20\x20\x20\x20const tr = rowOf(r.name, \"pick\" + (S.klass === r.name ? \" on\" : \"\"), () => {\n\
    \x20\x20\x20\x20\x20\x20\x20\x20S.klass = S.klass === r.name ? null : r.name;\n\
    \x20\x20\x20\x20\x20\x20\x20\x20S.order = 0;\n\
    \x20\x20\x20\x20\x20\x20\x20\x20M.fresh = true;\n\
    \x20\x20\x20\x20\x20\x20\x20\x20draw();\n\
    \x20\x20\x20\x20\x20\x20}),\n\
    \x20\x20\x20\x20\x20\x20n = el(\"td\", \"name\"),\n\
    \x20\x20\x20\x20\x20\x20b = barred(el(\"td\", \"bar\", num(r.bytes)), r.bytes / most, r.name);\n\
    \x20\x20\x20\x20n.append(swatch(colorOf(r.name)), r.name);\n\
    \x20\x20\x20\x20n.title = r.name;\n\
    \x20\x20\x20\x20tr.append(n, el(\"td\", \"\", num(r.objects)), b, el(\"td\", r.lost ? \"lost\" : \"lost zero\", r.lost ? num(r.lost) : \"\xc2\xb7\"));\n\
    \x20\x20\x20\x20if (S.base !== null)\n\
    \x20\x20\x20\x20\x20\x20for (const k of [\"dobjects\", \"dbytes\"]) tr.append(el(\"td\", r[k] > 0 ? \"up\" : r[k] < 0 ? \"down\" : \"zero\", r[k] ? signed(r[k]) : \"\xc2\xb7\"));\n\
    \x20\x20\x20\x20return tr;\n\
    \x20\x20}\n\
    \n\
    \x20\x20// ---- instances\n\
    \x20\x20// Returns how many objects of a class there are, or of any that were made since a place, how many of them were there before it, and\n\
    \x20\x20// the first few: those made since come first, since they are what has grown, and the oldest of them before the others.\n\
    \x20\x20function listed(name, at, since) {\n\
    \x20\x20\x20\x20const first = (found) => found.sort((a, b) => a.key - b.key).slice(0, LISTED);\n\
    \x20\x20\x20\x20let count = 0,\n\
    \x20\x20\x20\x20\x20\x20before = 0,\n\
    \x20\x20\x20\x20\x20\x20most = Infinity,\n\
    \x20\x20\x20\x20\x20\x20some = [];\n\
    \x20\x20\x20\x20eachCell(name, (g, cell) => {\n\
    \x20\x20\x20\x20\x20\x20const p = bornIn(g.number * WORDS + cell * g.size, at),\n\
    \x20\x20\x20\x20\x20\x20\x20\x20old = since !== null && (p === null || p <= since),\n\
    \x20\x20\x20\x20\x20\x20\x20\x20key = (old ? 2 ** 52 : 0) + (p ?? -1);\n\
    \x20\x20\x20\x20\x20\x20if (name === null && old) return;\n\
    \x20\x20\x20\x20\x20\x20count++;\n\
    \x20\x20\x20\x20\x20\x20before += old;\n\
    \x20\x20\x20\x20\x20\x20if (key >= most) return;\n\
    \x20\x20\x20\x20\x20\x20some.push({ g, cell, key, p, before: old });\n\
    \x20\x20\x20\x20\x20\x20if (some.length < 2 * LISTED) return;\n\
    \x20\x20\x20\x20\x20\x20some = first(some);\n\
    \x20\x20\x20\x20\x20\x20most = some[LISTED - 1].key;\n\
    \x20\x20\x20\x20});\n\
    \x20\x20\x20\x20return { count, before, some: first(some).map((x) => ({ o: objectIn(x.g, x.cell), ...x })) };\n\
    \x20\x20}\n\
    \n\
    \x20\x20// How often the instances were drawn, and how often what they retain was to be asked; when that is asked next, and how long the last\n\
    \x20\x20// answer took.\n\
    \x20\x20let lists = 0,\n\
    \x20\x20\x20\x20sizing = 0,\n\
    \x20\x20\x20\x20sizesLater = 0,\n\
    \x20\x20\x20\x20sizeTook = 0;\n\
    \n\
    \x20\x20// Draws those that can be seen without scrolling, and then, once these are on the screen, the others.\n\
    \x20\x20function drawInstances() {\n\
    \x20\x20\x20\x20const note = $(\"instnote\"),\n\
    \x20\x20\x20\x20\x20\x20name = S.klass,\n\
    \x20\x20\x20\x20\x20\x20at = S.shown,\n\
    \x20\x20\x20\x20\x20\x20since = S.base !== null && S.base < at ? S.base : null,\n\
    \x20\x20\x20\x20\x20\x20any = name !== null || since !== null;\n\
    \x20\x20\x20\x20$(\"inst\").hidden = !any;\n\
    \x20\x20\x20\x20$(\"tops\").hidden = any || !S.tops.rows.length;\n\
    \x20\x20\x20\x20$(\"instempty\").hidden = any || !$(\"tops\").hidden;\n\
    \x20\x20\x20\x20note.textContent = \"\";\n\
    \x20\x20\x20\x20clearTimeout(sizesLater);\n\
    \x20\x20\x20\x20sizing++;\n\
    \x20\x20\x20\x20drawDiffs();\n\
    \x20\x20\x20\x20if (!any) return drawTops();\n\
    \x20\x20\x20\x20const { count, before, some } = listed(name, at, since),\n\
    \x20\x20\x20\x20\x20\x20fresh = since === null ? \"\" : `, ${num(count - before)} made since @${num(since)}`;\n\
    \x20\x20\x20\x20note.title = \"The oldest first; those that were there before a place that is compared with come last\";\n\
    \x20\x20\x20\x20note.textContent = `${num(count)}${name ? \" of \" + name : \"\"}${fresh}` + (count > some.length ? `, ${num(some.length)} shown` : \"\");\n\
    \x20\x20\x20\x20const head = el(\"tr\");\n\
    \x20\x20\x20\x20for (const t of [\"Object\", name ? \"Slots\" : \"Class\", \"\", \"Made at\", \"Steps ago\"]) head.append(t ? el(\"th\", t === \"Class\" ? \"left\" : \"\", t) : sizeHead());\n\
    \x20\x20\x20\x20if (S.order) some.sort((a, b) => S.order * (sizeKey(a) - sizeKey(b)));\n\
    \x20\x20\x20\x20const box = $(\"inst\").parentElement,\n\
    \x20\x20\x20\x20\x20\x20body = $(\"inst\").tBodies[0],\n\
    \x20\x20\x20\x20\x20\x20rows = (part) => part.map((x) => instanceRow(x, name, at)),\n\
    \x20\x20\x20\x20\x20\x20few = isFar(box) || box.contains(document.activeElement) ? some.length : Math.ceil(innerHeight / 40),\n\
    \x20\x20\x20\x20\x20\x20turn = ++lists;\n\
    \x20\x20\x20\x20keepFocus($(\"inst\"), () => {\n\
    \x20\x20\x20\x20\x20\x20$(\"inst\").tHead.replaceChildren(head);\n\
    \x20\x20\x20\x20\x20\x20body.replaceChildren(...rows(some.slice(0, few)));\n\
    \x20\x20\x20\x20});\n\
    \x20\x20\x20\x20if (few < some.length) afterPaint(() => turn === lists && body.append(...rows(some.slice(few))));\n\
    \x20\x20\x20\x20loadSizesLater();\n\
    \x20\x20}\n\
    \n\
    \x20\x20// The heading of what objects retain: a click sorts by it.\n\
    \x20\x20function sizeHead() {\n\
    \x20\x20\x20\x20const th = el(\"th\"),\n\
    \x20\x20\x20\x20\x20\x20b = el(\"button\", \"\", \"Retains\");\n\
    \x20\x20\x20\x20th.title = \"Bytes of what is reached only through the object, itself among it. A click sorts by it the objects that are listed\";\n\
    \x20\x20\x20\x20b.dataset.row = \"retains\";\n\
    \x20\x20\x20\x20if (S.order) th.setAttribute(\"aria-sort\", S.order < 0 ? \"descending\" : \"ascending\");\n\
    \x20\x20\x20\x20b.onclick = () => {\n\
    \x20\x20\x20\x20\x20\x20S.order = S.order < 0 ? 1 : -1;\n\
    \x20\x20\x20\x20\x20\x20drawInstances();\n\
    \x20\x20\x20\x20};\n\
    \x20\x20\x20\x20th.append(b);\n\
    \x20\x20\x20\x20return th;\n\
    \x20\x20}\n\
    \n\
    \x20\x20// What an object of the list retains: at the shown place, or else where it was known last.\n\
    \x20\x20const sizeOf = (id) => S.sizes.of.get(id) ?? S.sizes.before.get(id);\n\
    \x20\x20// Those of which it isn't known come last.\n\
    \x20\x20const sizeKey = ({ o }) => (o.lost ? 0 : sizeOf(idOf(o.w))) ?? (S.order < 0 ? -1 : Infinity);\n\
    \n\
    \x20\x20// Writes what an object retains, faint if it isn't known of the shown place.\n\
    \x20\x20function fillSize(cell, id, o) {\n\
    \x20\x20\x20\x20const bytes = o.lost ? 0 : sizeOf(id);\n\
    \x20\x20\x20\x20cell.className = o.lost || !S.sizes.of.has(id) ? \"bar dim\" : \"bar\";\n\
    \x20\x20\x20\x20cell.textContent = o.lost ? \"\xc2\xb7\" : bytes === undefined ? \"\xe2\x80\xa6\" : num(bytes);\n\
    \x20\x20\x20\x20if (bytes === undefined || o.lost) return;\n\
    \x20\x20\x20\x20cell.title = percent(bytes);\n\
    \x20\x20\x20\x20barred(cell, shareOf(bytes), o.name);\n\
    \x20\x20}\n\
    \n\
    \x20\x20// Returns the objects of the list that can be seen, or all of it if it is sorted by what they retain, of which that isn't known.\n\
    \x20\x20function sizesWanted() {\n\
    \x20\x20\x20\x20const box = $(\"inst\").parentElement.getBoundingClientRect(),\n\
    \x20\x20\x20\x20\x20\x20seen = (r) => r.bottom > box.top && r.top < box.bottom,\n\
    \x20\x20\x20\x20\x20\x20rows = [...$(\"inst\").tBodies[0].rows].filter((row) => S.order || seen(row.getBoundingClientRect()));\n\
    \x20\x20\x20\x20return rows.map((row) => row.dataset.row).filter((id) => !S.sizes.of.has(id) && objectAt(id) && !objectAt(id).lost);\n\
    \x20\x20}\n\
    \x20\x20// Asks what the objects retain that can be seen in the list, once it hasn't changed for a while: longer if each answer takes long.\n\
    \x20\x20function loadSizesLater() {\n\
    \x20\x20\x20\x20clearTimeout(sizesLater);\n\
    \x20\x20\x20\x20sizing++;\n\
    \x20\x20\x20\x20if (!S.fast) sizesLater = setTimeout(() => loadSizes().catch(() => {}), Math.max(300, 20 * sizeTook));\n\
    \x20\x20}\n\
    \x20\x20async function loadSizes() {\n\
    \x20\x20\x20\x20const place = S.shown,\n\
    \x20\x20\x20\x20\x20\x20turn = sizing,\n\
    \x20\x20\x20\x20\x20\x20wanted = () => turn === sizing && place === S.shown;\n\
    \x20\x20\x20\x20if (S.sizes.place !== place) S.sizes = { place, of: new Map(), before: new Map([...S.sizes.before, ...S.sizes.of].slice(-2000)) };\n\
    \x20\x20\x20\x20if ($(\"inst\").hidden) return;\n\
    \x20\x20\x20\x20await eachInTurn(sizesWanted(), wanted, async (id) => {\n\
    \x20\x20\x20\x20\x20\x20const r = await ask(`retained @${place} ${id}`, true);\n\
    \x20\x20\x20\x20\x20\x20sizeTook = r.ms;\n\
    \x20\x20\x20\x20\x20\x20if (!r.ok || place !== S.shown) return;\n\
    \x20\x20\x20\x20\x20\x20S.sizes.of.set(id, +r.words[2]);\n\
    \x20\x20\x20\x20\x20\x20const row = rowNamed($(\"inst\"), id);\n\
    \x20\x20\x20\x20\x20\x20if (row) fillSize(row.cells[2], id, objectAt(id));\n\
    \x20\x20\x20\x20});\n\
    \x20\x20\x20\x20if (wanted() && S.order) drawInstances();\n\
    \x20\x20}\n\
    \n\
    \x20\x20let diffsLater = 0;\n\
    \n\
    \x20\x20// Draws what differs from the place that is compared with: the objects that are gone, and the slots that hold something else, of all\n\
    \x20\x20// objects or of those of a class. Those of the place that was shown before stay until it is known. What was made since is listed above.\n\
    \x20\x20function drawDiffs() {\n\
    \x20\x20\x20\x20const { base, shown, klass } = S,\n\
    \x20\x20\x20\x20\x20\x20it = S.diffs,\n\
    \x20\x20\x20\x20\x20\x20known = it.base === base && it.place === shown,\n\
    \x20\x20\x20\x20\x20\x20box = $(\"diffs\");\n\
    \x20\x20\x20\x20clearTimeout(diffsLater);\n\
    \x20\x20\x20\x20if (base === null || base === shown) return box.replaceChildren();\n\
    \x20\x20\x20\x20if (!known) diffsLater = setTimeout(() => loadDiffs(base, shown).catch(() => {}), 300);\n\
    \x20\x20\x20\x20const rows = it.base === base ? it.rows.filter(([id, slot]) => slot !== \"made\" && (klass === null || objectAt(id)?.name === klass)) : [],\n\
    \x20\x20\x20\x20\x20\x20sub = el(\"div\", \"sub\", `Differs from @${num(base)}`),\n\
    \x20\x20\x20\x20\x20\x20out = [sub];\n\
    \x20\x20\x20\x20sub.append(el(\"small\", \"\", known ? num(rows.length) : \"\xe2\x80\xa6\"));\n\
    \x20\x20\x20\x20if (rows.length) out.push(diffTable(rows.slice(0, LISTED)));\n\
    \x20\x20\x20\x20if (rows.length > LISTED) out.push(el(\"div\", \"empty\", `and ${num(rows.length - LISTED)} more`));\n\
    \x20\x20\x20\x20keepFocus(box, () => box.replaceChildren(...out));\n\
    \x20\x20}\n\
    \n\
    \x20\x20// Asks what differs from the place that is compared with, once both have been shown for a while.\n\
    \x20\x20async function loadDiffs(base, place) {\n\
    \x20\x20\x20\x20if (S.fast) return;\n\
    \x20\x20\x20\x20const r = await ask(`diff @${base} @${place}`, true);\n\
    \x20\x20\x20\x20if (!r.ok || base !== S.base || place !== S.shown) return;\n\
    \x20\x20\x20\x20S.diffs = { base, place, rows: r.rows };\n\
    \x20\x20\x20\x20drawDiffs();\n\
    \x20\x20}\n\
    \n\
    \x20\x20function diffTable(rows) {\n\
    \x20\x20\x20\x20const table = el(\"table\"),\n\
    \x20\x20\x20\x20\x20\x20head = el(\"tr\");\n\
    \x20\x20\x20\x20for (const x of [\"Object\", \"Slot\", \"Old\", \"New\"]) head.append(el(\"th\", \"\", x));\n\
    \x20\x20\x20\x20table.createTHead().append(head);\n\
    \x20\x20\x20\x20table.createTBody().append(...rows.map(diffRow));\n\
    \x20\x20\x20\x20table.ariaLabel = \"What differs\";\n\
    \x20\x20\x20\x20return table;\n\
    \x20\x20}\n\
    \n\
    \x20\x20function diffRow([id, slot, ...words]) {\n\
    \x20\x20\x20\x20const tr = rowOf(`${id} ${slot}`, \"pick\", () => pick(id)),\n\
    \x20\x20\x20\x20\x20\x20first = el(\"td\"),\n\
    \x20\x20\x20\x20\x20\x20o = objectAt(id);\n\
    \x20\x20\x20\x20if (o) first.append(swatch(colorOf(o.name)));\n\
    \x20\x20\x20\x20first.append(id);\n\
    \x20\x20\x20\x20tr.append(first, el(\"td\", words.length ? \"\" : \"dim\", words.length ? nameOfSlot(id, slot) : slot), ...words.map(valueCell));\n\
    \x20\x20\x20\x20return tr;\n\
    \x20\x20}\n\
    \n\
    \x20\x20// Asks through which objects most is reached, once a place has been shown for a while and no class is picked.\n\
    \x20\x20async function loadTops(place) {\n\
    \x20\x20\x20\x20const wanted = () => place === S.shown && !S.fast && S.klass === null && S.base === null;\n\
    \x20\x20\x20\x20if (!wanted()) return;\n\
    \x20\x20\x20\x20const r = await ask(`dominators @${place} ${TOPS}`, true);\n\
    \x20\x20\x20\x20if (!r.ok || place !== S.shown) return;\n\
    \x20\x20\x20\x20S.tops = { place, rows: r.rows };\n\
    \x20\x20\x20\x20drawInstances();\n\
    \x20\x20\x20\x20await eachInTurn(openBelow(r.rows), wanted, (id) => loadKids(id));\n\
    \x20\x20}\n\
    \x20\x20let topsLater = 0;\n\
    \n\
    \x20\x20// Draws the objects through which most is reached, as a tree: below each that is open are the objects that it dominates. Those of the\n\
    \x20\x20// place that was shown before are faint until it is known.\n\
    \x20\x20function drawTops() {\n\
    \x20\x20\x20\x20const known = S.tops.place === S.shown;\n\
    \x20\x20\x20\x20clearTimeout(topsLater);\n\
    \x20\x20\x20\x20if (!known) topsLater = setTimeout(() => loadTops(S.shown).catch(() => {}), 300);\n\
    \x20\x20\x20\x20if (!S.tops.rows.length) return;\n\
    \x20\x20\x20\x20$(\"instnote\").textContent = \"through which most is reached\";\n\
    \x20\x20\x20\x20$(\"instnote\").title = \"What is reached only through each of them, itself among it. Click a class to list its objects\";\n\
    \x20\x20\x20\x20keepFocus($(\"tops\"), () => $(\"tops\").tBodies[0].replaceChildren(...treeRows(S.tops.rows, 1, known, new Set())));\n\
    \x20\x20}\n\
    \n\
    \x20\x20// Returns the objects below some that are open, as far as they are known.\n\
    \x20\x20function openBelow(rows, found = new Set()) {\n\
    \x20\x20\x20\x20for (const [id] of rows) {\n\
    \x20\x20\x20\x20\x20\x20if (!S.open.has(id) || found.has(id)) continue;\n\
    \x20\x20\x20\x20\x20\x20found.add(id);\n\
    \x20\x20\x20\x20\x20\x20openBelow(S.kids.get(id)?.rows ?? [], found);\n\
    \x20\x20\x20\x20}\n\
    \x20\x20\x20\x20return [...found];\n\
    \x20\x20}\n\
    \n\
    \x20\x20// Returns the rows of objects and of all below them that is open. Each object has one place in a tree, but what is known of two places\n\
    \x20\x20// may disagree.\n\
    \x20\x20function treeRows(rows, level, known, seen) {\n\
    \x20\x20\x20\x20const out = [];\n\
    \x20\x20\x20\x20for (const x of rows) {\n\
    \x20\x20\x20\x20\x20\x20if (seen.has(x[0])) continue;\n\
    \x20\x20\x20\x20\x20\x20seen.add(x[0]);\n\
    \x20\x20\x20\x20\x20\x20out.push(topRow(x, level, known));\n\
    \x20\x20\x20\x20\x20\x20if (S.open.has(x[0])) out.push(...rowsBelow(x, level + 1, seen));\n\
    \x20\x20\x20\x20}\n\
    \x20\x20\x20\x20return out;\n\
    \x20\x20}\n\
    \n\
    \x20\x20// Returns the rows below an open object: objects that hang one below it, and how many other objects hang below it.\n\
    \x20\x20function rowsBelow([id, objects], level, seen) {\n\
    \x20\x20\x20\x20const kids = S.kids.get(id);\n\
    \x20\x20\x20\x20if (!kids) return [restRow(id, level, \"\xe2\x80\xa6\")];\n\
    \x20\x20\x20\x20const rest = kids.rows.reduce((sum, x) => sum - x[1], objects - 1),\n\
    \x20\x20\x20\x20\x20\x20out = treeRows(kids.rows, level, kids.place === S.shown, seen);\n\
    \x20\x20\x20\x20if (rest > 0) out.push(restRow(id, level, `\xe2\x80\xa6 ${num(rest)} more objects`, \"List the next objects that it dominates\", () => loadKids(id, true).catch(() => {})));\n\
    \x20\x20\x20\x20return out;\n\
    \x20\x20}\n\
    \x20\x20const indent = (level) => 12 + 14 * Math.min(level - 1, 10) + \"px\";\n\
    \n\
    \x20\x20function restRow(id, level, text, title = \"\", act = null) {\n\
    \x20\x20\x20\x20const tr = rowOf(id + \" more\", act ? \"pick\" : \"\", null),\n\
    \x20\x20\x20\x20\x20\x20cell = el(\"td\", \"dim\", text);\n\
    \x20\x20\x20\x20cell.colSpan = 4;\n\
    \x20\x20\x20\x20cell.style.paddingLeft = `calc(${indent(level)} + 14px)`;\n\
    \x20\x20\x20\x20if (act) tr.onclick = () => {\n\
    \x20\x20\x20\x20\x20\x20tr.previousElementSibling.focus();\n\
    \x20\x20\x20\x20\x20\x20act();\n\
    \x20\x20\x20\x20};\n\
    \x20\x20\x20\x20tr.title = title;\n\
    \x20\x20\x20\x20tr.ariaLevel = level;\n\
    \x20\x20\x20\x20tr.append(cell);\n\
    \x20\x20\x20\x20return tr;\n\
    \x20\x20}\n\
    \n\
    \x20\x20function topRow([id, objects, bytes, name], level, known) {\n\
    \x20\x20\x20\x20const tr = rowOf(id, \"pick\" + (S.sel === id ? \" on\" : \"\") + (known ? \"\" : \" before\"), () => pick(id)),\n\
    \x20\x20\x20\x20\x20\x20first = el(\"td\"),\n\
    \x20\x20\x20\x20\x20\x20other = el(\"td\", \"name left\", name),\n\
    \x20\x20\x20\x20\x20\x20b = barred(el(\"td\", \"bar\", num(bytes)), shareOf(bytes), name);\n\
    \x20\x20\x20\x20tr.ariaLevel = level;\n\
    \x20\x20\x20\x20first.append(twist(tr, id, objects > 1), swatch(colorOf(name)), id);\n\
    \x20\x20\x20\x20first.style.paddingLeft = indent(level);\n\
    \x20\x20\x20\x20other.title = name;\n\
    \x20\x20\x20\x20b.title = percent(bytes);\n\
    \x20\x20\x20\x20tr.append(first, other, el(\"td\", \"\", num(objects)), b);\n\
    \x20\x20\x20\x20return tr;\n\
    \x20\x20}\n\
    \n\
    \x20\x20// What opens and closes a row of the tree, if there is anything below.\n\
    \x20\x20function twist(tr, id, any) {\n\
    \x20\x20\x20\x20const b = el(\"button\", \"twist\");\n\
    \x20\x20\x20\x20b.tabIndex = -1;\n\
    \x20\x20\x20\x20b.hidden = !any;\n\
    \x20\x20\x20\x20b.onclick = (e) => {\n\
    \x20\x20\x20\x20\x20\x20e.stopPropagation();\n\
    \x20\x20\x20\x20\x20\x20turnNode(id);\n\
    \x20\x20\x20\x20};\n\
    \x20\x20\x20\x20if (!any) return b;\n\
    \x20\x20\x20\x20tr.ariaExpanded = S.open.has(id);\n\
    \x20\x20\x20\x20b.title = b.ariaLabel = S.open.has(id) ? \"Close\" : \"Show what it dominates\";\n\
    \x20\x20\x20\x20return b;\n\
    \x20\x20}\n\
    \n\
    \x20\x20function turnNode(id) {\n\
    \x20\x20\x20\x20if (!S.open.delete(id)) {\n\
    \x20\x20\x20\x20\x20\x20S.open.add(id);\n\
    \x20\x20\x20\x20\x20\x20loadKids(id).catch(() => {});\n\
    \x20\x20\x20\x20}\n\
    \x20\x20\x20\x20drawInstances();\n\
    \x20\x20}\n\
    \n\
    \x20\x20// Asks which objects hang one below an object in the tree, with what each retains: the first few, or the next ones too.\n\
    \x20\x20async function loadKids(id, more) {\n\
    \x20\x20\x20\x20const place = S.tops.place,\n\
    \x20\x20\x20\x20\x20\x20wanted = () => place === S.shown && S.open.has(id),\n\
    \x20\x20\x20\x20\x20\x20was = S.kids.get(id),\n\
    \x20\x20\x20\x20\x20\x20same = was && was.place === place;\n\
    \x20\x20\x20\x20if (!wanted() || (same && !more)) return;\n\
    \x20\x20\x20\x20const most = (was ? was.most : KIDS) + (same ? KIDS : 0),\n\
    \x20\x20\x20\x20\x20\x20r = await ask(`dominators @${place} ${id} ${most}`, true);\n\
    \x20\x20\x20\x20if (!r.ok || !wanted()) return;\n\
    \x20\x20\x20\x20S.kids.set(id, { place, most, rows: r.rows });\n\
    \x20\x20\x20\x20drawInstances();\n\
    \x20\x20}\n\
    \n\
    \x20\x20// The keys of a row of the tree: Right opens it, or goes to what is below; Left closes it, or goes to what is above.\n\
    \x20\x20function treeKey(row, key) {\n\
    \x20\x20\x20\x20const right = key === \"ArrowRight\",\n\
    \x20\x20\x20\x20\x20\x20open = row.ariaExpanded;\n\
    \x20\x20\x20\x20if (open === String(!right)) turnNode(row.dataset.row);\n\
    \x20\x20\x20\x20else if (right) open && row.nextElementSibling?.focus();\n\
    \x20\x20\x20\x20else {\n\
    \x20\x20\x20\x20\x20\x20let above = row.previousElementSibling;\n\
    \x20\x20\x20\x20\x20\x20while (above && Number(above.ariaLevel) >= Number(row.ariaLevel)) above = above.previousElementSibling;\n\
    \x20\x20\x20\x20\x20\x20above?.focus();\n\
    \x20\x20\x20\x20}\n\
    \x20\x20}\n\
    \n\
    \x20\x20function instanceRow({ o, p, before }, name, at) {\n\
    \x20\x20\x20\x20const id = idOf(o.w),\n\
    \x20\x20\x20\x20\x20\x20tr = rowOf(id, \"pick\" + (S.sel === id ? \" on\" : \"\") + (name && before ? \" before\" : \"\"), () => pick(id)),\n\
    \x20\x20\x20\x20\x20\x20first = el(\"td\"),\n\
    \x20\x20\x20\x20\x20\x20place = el(\"td\"),\n\
    \x20\x20\x20\x20\x20\x20sw = swatch(colorOf(o.name)),\n\
    \x20\x20\x20\x20\x20\x20other = el(\"td\", name ? \"\" : \"name left\", name ? num(o.slots) : o.name);\n\
    \x20\x20\x20\x20if (o.lost) {\n\
    \x20\x20\x20\x20\x20\x20sw.style.background = \"none\";\n\
    \x20\x20\x20\x20\x20\x20sw.style.boxShadow = \"inset 0 0 0 1.5px \" + colorOf(o.name);\n\
    \x20\x20\x20\x20\x20\x20first.title = \"no register reaches it\";\n\
    \x20\x20\x20\x20}\n\
    \x20\x20\x20\x20first.append(sw, id);\n\
    \x20\x20\x20\x20place.append(p === null ? el(\"span\", \"dim\", unknown()) : placeLink(p));\n\
    \x20\x20\x20\x20other.title = o.name;\n\
    \x20\x20\x20\x20const size = el(\"td\");\n\
    \x20\x20\x20\x20fillSize(size, id, o);\n\
    \x20\x20\x20\x20tr.append(first, other, size, place, el(\"td\", \"mid\", p === null ? \"\" : num(at - p)));\n\
    \x20\x20\x20\x20return tr;\n\
    \x20\x20}\n\
    \n\
    \x20\x20// ---- map\n\
    \x20\x20// At zoom 1 all regions fit into the box. x and y say which point of that picture is at its left and top.\n\
    \x20\x20const M = {\n\
    \x20\x20\x20\x20list: [],\n\
    \x20\x20\x20\x20spot: new Map(),\n\
    \x20\x20\x20\x20columns: 1,\n\
    \x20\x20\x20\x20lines: 4,\n\
    \x20\x20\x20\x20zoom: 1,\n\
    \x20\x20\x20\x20x: 0,\n\
    \x20\x20\x20\x20y: 0,\n\
    \x20\x20\x20\x20w: 0,\n\
    \x20\x20\x20\x20h: 0,\n\
    \x20\x20\x20\x20box: { w: 0, h: 0 },\n\
    \x20\x20\x20\x20left: 0,\n\
    \x20\x20\x20\x20gap: 0,\n\
    \x20\x20\x20\x20bw: 0,\n\
    \x20\x20\x20\x20bh: 0,\n\
    \x20\x20\x20\x20unit: 1,\n\
    \x20\x20\x20\x20lh: 1,\n\
    \x20\x20\x20\x20most: 1,\n\
    \x20\x20\x20\x20fresh: true,\n\
    \x20\x20\x20\x20atlas: null,\n\
    \x20\x20\x20\x20ink: {},\n\
    \x20\x20\x20\x20cursor: null,\n\
    \x20\x20\x20\x20drag: null\n\
    \x20\x20};\n\
    \n\
    \x20\x20// Places the regions: in one column if they are few, else in as many columns as make good oblongs; and cuts each into lines that make\n\
    \x20\x20// good cells.\n\
    \x20\x20function arrange(w, h) {\n\
    \x20\x20\x20\x20const n = Math.max(1, M.list.length),\n\
    \x20\x20\x20\x20\x20\x20few = n <= 12,\n\
    \x20\x20\x20\x20\x20\x20gap = few ? 10 : n <= 64 ? 6 : n <= 512 ? 3 : 1,\n\
    \x20\x20\x20\x20\x20\x20left = few ? 30 : 0,\n\
    \x20\x20\x20\x20\x20\x20wide = (columns) => (w - left - gap * (columns - 1)) / columns,\n\
    \x20\x20\x20\x20\x20\x20high = (columns) => {\n\
    \x20\x20\x20\x20\x20\x20\x20\x20const rows = Math.ceil(n / columns);\n\
    \x20\x20\x20\x20\x20\x20\x20\x20return (h - gap * (rows - 1)) / rows;\n\
    \x20\x20\x20\x20\x20\x20},\n\
    \x20\x20\x20\x20\x20\x20bad = (columns) => wide(columns) < 1 || high(columns) < 1 ? Infinity : Math.abs(Math.log(wide(columns) / high(columns) / 2));\n\
    \x20\x20\x20\x20let columns = 1,\n\
    \x20\x20\x20\x20\x20\x20least = few ? 0 : bad(1);\n\
    \x20\x20\x20\x20for (let k = 2; k <= n && !few; k++)\n\
    \x20\x20\x20\x20\x20\x20if (bad(k) < least) least = bad(columns = k);\n\
    \x20\x20\x20\x20const bw = wide(columns),\n\
    \x20\x20\x20\x20\x20\x20bh = few ? Math.min(88, high(columns)) : high(columns),\n\
    \x20\x20\x20\x20\x20\x20lines = 2 ** Math.max(0, Math.min(5, Math.round(Math.log2(154 * bh / bw) / 2))),\n\
    \x20\x20\x20\x20\x20\x20unit = bw / (WORDS / lines),\n\
    \x20\x20\x20\x20\x20\x20lh = bh / lines,\n\
    \x20\x20\x20\x20\x20\x20most = Math.max(1, .7 * Math.min(w / (4 * unit), h / lh));\n\
    \x20\x20\x20\x20if (columns !== M.columns || lines !== M.lines) M.atlas = null;\n\
    \x20\x20\x20\x20Object.assign(M, { w, h, columns, lines, gap, left, bw, bh, unit, lh, most });\n\
    \x20\x20}\n\
    \n\
    \x20\x20function clampView() {\n\
    \x20\x20\x20\x20M.zoom = Math.max(1, Math.min(M.most, M.zoom));\n\
    \x20\x20\x20\x20M.x = Math.max(0, Math.min(M.w - M.w / M.zoom, M.x));\n\
    \x20\x20\x20\x20M.y = Math.max(0, Math.min(M.h - M.h / M.zoom, M.y));\n\
    \x20\x20}\n\
    \n\
    \x20\x20// Takes the regions of the shown state, and keeps the cell in the middle there.\n\
    \x20\x20function takeRegions(w, h) {\n\
    \x20\x20\x20\x20const middle = M.zoom > 1 && M.w ? cellAt(M.w / 2, M.h / 2) : null;\n\
    \x20\x20\x20\x20M.list = [...S.regions.values()].flatMap(partsOf).sort((a, b) => a.number - b.number);\n\
    \x20\x20\x20\x20M.spot = new Map(M.list.map((g, i) => [g.number, i]));\n\
    \x20\x20\x20\x20if (M.fresh) M.atlas = null;\n\
    \x20\x20\x20\x20M.ink = { free: css(\"--free\"), ink: css(\"--ink\"), ink3: css(\"--ink3\"), panel: css(\"--panel\"), red: css(\"--red\"), mono: css(\"--mono\") };\n\
    \x20\x20\x20\x20if (w !== M.w || h !== M.h || M.list.length !== M.placed) arrange(w, h);\n\
    \x20\x20\x20\x20M.placed = M.list.length;\n\
    \x20\x20\x20\x20M.fresh = false;\n\
    \x20\x20\x20\x20if (middle && M.spot.has(middle.g.number)) centre(middle.g.number, middle.word);\n\
    \x20\x20}\n\
    \n\
    \x20\x20// Brings a word of a region into the middle.\n\
    \x20\x20function centre(number, word) {\n\
    \x20\x20\x20\x20const i = M.spot.get(number),\n\
    \x20\x20\x20\x20\x20\x20per = WORDS / M.lines;\n\
    \x20\x20\x20\x20M.x = M.left + (i % M.columns) * (M.bw + M.gap) + (word % per + .5) * M.unit - M.w / M.zoom / 2;\n\
    \x20\x20\x20\x20M.y = Math.floor(i / M.columns) * (M.bh + M.gap) + (Math.floor(word / per) + .5) * M.lh - M.h / M.zoom / 2;\n\
    \x20\x20\x20\x20clampView();\n\
    \x20\x20}\n\
    \n\
    \x20\x20// Zooms, and leaves a point of the box where it is.\n\
    \x20\x20function zoomBy(factor, x = M.w / 2, y = M.h / 2) {\n\
    \x20\x20\x20\x20const px = M.x + x / M.zoom,\n\
    \x20\x20\x20\x20\x20\x20py = M.y + y / M.zoom;\n\
    \x20\x20\x20\x20M.zoom = Math.max(1, Math.min(M.most, M.zoom * factor));\n\
    \x20\x20\x20\x20M.x = px - x / M.zoom;\n\
    \x20\x20\x20\x20M.y = py - y / M.zoom;\n\
    \x20\x20\x20\x20clampView();\n\
    \x20\x20\x20\x20drawMap();\n\
    \x20\x20}\n\
    \n\
    \x20\x20// Zooms so that a cell fills most of the box.\n\
    \x20\x20function zoomTo(number, cell) {\n\
    \x20\x20\x20\x20const i = M.spot.get(number),\n\
    \x20\x20\x20\x20\x20\x20g = M.list[i];\n\
    \x20\x20\x20\x20if (!g) return;\n\
    \x20\x20\x20\x20const per = WORDS / M.lines,\n\
    \x20\x20\x20\x20\x20\x20words = Math.min(g.size, per);\n\
    \x20\x20\x20\x20M.zoom = Math.min(.7 * M.w / (words * M.unit), .7 * M.h / (Math.max(1, g.size / per) * M.lh));\n\
    \x20\x20\x20\x20clampView();\n\
    \x20\x20\x20\x20centre(number, cell * g.size + (words - 1) / 2);\n\
    \x20\x20\x20\x20drawMap();\n\
    \x20\x20}\n\
    \n\
    \x20\x20// A cell's state: its object, if any, and its letter.\n\
    \x20\x20function cellOf(g, cell) {\n\
    \x20\x20\x20\x20const o = objectIn(g, cell),\n\
    \x20\x20\x20\x20\x20\x20letter = g.letters ? g.letters[cell] : \"\";\n\
    \x20\x20\x20\x20// If there is no object, a letter of a live one is of one that was made since.\n\
    \x20\x20\x20\x20return { o, dead: !o && letter === \"x\", marked: !!o && letter === \"m\", gray: !!o && letter === \"g\" };\n\
    \x20\x20}\n\
    \n\
    \x20\x20function shadeOf(o, at, span) {\n\
    \x20\x20\x20\x20if (S.by === \"class\") return colorOf(o.name);\n\
    \x20\x20\x20\x20const p = bornAt(o, at);\n\
    \x20\x20\x20\x20return p === null ? ANCIENT : ramp((at - p) / span);\n\
    \x20\x20}\n\
    \x20\x20const hatches = new Map();\n\
    \n\
    \x20\x20// Returns a pattern of oblique lines.\n\
    \x20\x20function hatch(c, color, back) {\n\
    \x20\x20\x20\x20const name = color + back;\n\
    \x20\x20\x20\x20if (!hatches.has(name)) {\n\
    \x20\x20\x20\x20\x20\x20const tile = document.createElement(\"canvas\"),\n\
    \x20\x20\x20\x20\x20\x20\x20\x20t = fit(tile, 6, 6);\n\
    \x20\x20\x20\x20\x20\x20t.fillStyle = back;\n\
    \x20\x20\x20\x20\x20\x20t.fillRect(0, 0, 6, 6);\n\
    \x20\x20\x20\x20\x20\x20t.strokeStyle = color;\n\
    \x20\x20\x20\x20\x20\x20t.lineWidth = 1.3;\n\
    \x20\x20\x20\x20\x20\x20t.beginPath();\n\
    \x20\x20\x20\x20\x20\x20for (const k of [-6, 0, 6]) {\n\
    \x20\x20\x20\x20\x20\x20\x20\x20t.moveTo(k - 1, 7);\n\
    \x20\x20\x20\x20\x20\x20\x20\x20t.lineTo(k + 7, -1);\n\
    \x20\x20\x20\x20\x20\x20}\n\
    \x20\x20\x20\x20\x20\x20t.stroke();\n\
    \x20\x20\x20\x20\x20\x20const p = c.createPattern(tile, \"repeat\"),\n\
    \x20\x20\x20\x20\x20\x20\x20\x20r = devicePixelRatio || 1;\n\
    \x20\x20\x20\x20\x20\x20p.setTransform(new DOMMatrix([1 / r, 0, 0, 1 / r, 0, 0]));\n\
    \x20\x20\x20\x20\x20\x20hatches.set(name, p);\n\
    \x20\x20\x20\x20}\n\
    \x20\x20\x20\x20return hatches.get(name);\n\
    \x20\x20}\n\
    \x20\x20const blend = (a, b, t) => {\n\
    \x20\x20\x20\x20const [x, y] = [rgb(a), rgb(b)];\n\
    \x20\x20\x20\x20return \"#\" + x.map((v, k) => Math.round(v * t + y[k] * (1 - t)).toString(16).padStart(2, \"0\")).join(\"\");\n\
    \x20\x20};\n\
    \x20\x20const faint = new Map();\n\
    \n\
    \x20\x20function mixed(a, b, t) {\n\
    \x20\x20\x20\x20const name = a + b + t;\n\
    \x20\x20\x20\x20if (!faint.has(name)) faint.set(name, blend(a, b, t));\n\
    \x20\x20\x20\x20return faint.get(name);\n\
    \x20\x20}\n\
    \n\
    \x20\x20// Returns what gives the colour of a cell that is too small for hatching, as a pixel.\n\
    \x20\x20function pixels() {\n\
    \x20\x20\x20\x20const at = S.shown,\n\
    \x20\x20\x20\x20\x20\x20span = Math.max(1, at - S.oldest),\n\
    \x20\x20\x20\x20\x20\x20byAge = S.by === \"age\",\n\
    \x20\x20\x20\x20\x20\x20{ free, panel, ink, ink3, red } = M.ink,\n\
    \x20\x20\x20\x20\x20\x20pixel = (color) => {\n\
    \x20\x20\x20\x20\x20\x20\x20\x20const [r, g, b] = rgb(color);\n\
    \x20\x20\x20\x20\x20\x20\x20\x20return (0xff000000 | b << 16 | g << 8 | r) >>> 0;\n\
    \x20\x20\x20\x20\x20\x20},\n\
    \x20\x20\x20\x20\x20\x20none = pixel(free),\n\
    \x20\x20\x20\x20\x20\x20dead = pixel(mixed(ink3, free, .5)),\n\
    \x20\x20\x20\x20\x20\x20known = new Map(),\n\
    \x20\x20\x20\x20\x20\x20colorFor = (o, letter) => {\n\
    \x20\x20\x20\x20\x20\x20\x20\x20const own = shadeOf(o, at, span),\n\
    \x20\x20\x20\x20\x20\x20\x20\x20\x20\x20color = letter === \"g\" ? red : letter === \"m\" ? mixed(own, ink, .6) : o.lost && !byAge ? mixed(own, panel, .45) : own;\n\
    \x20\x20\x20\x20\x20\x20\x20\x20return pixel(S.klass && o.name !== S.klass ? mixed(color, panel, .16) : color);\n\
    \x20\x20\x20\x20\x20\x20};\n\
    \x20\x20\x20\x20// Most cells are as the one before.\n\
    \x20\x20\x20\x20let was = -1,\n\
    \x20\x20\x20\x20\x20\x20before = \"\",\n\
    \x20\x20\x20\x20\x20\x20value = 0;\n\
    \x20\x20\x20\x20return (g, cell) => {\n\
    \x20\x20\x20\x20\x20\x20const of = g.cells[cell],\n\
    \x20\x20\x20\x20\x20\x20\x20\x20letter = g.letters ? g.letters[cell] : \"o\";\n\
    \x20\x20\x20\x20\x20\x20if (of === was && letter === before && !byAge) return value;\n\
    \x20\x20\x20\x20\x20\x20was = of;\n\
    \x20\x20\x20\x20\x20\x20before = letter;\n\
    \x20\x20\x20\x20\x20\x20if (!of) return value = letter === \"x\" ? dead : none;\n\
    \x20\x20\x20\x20\x20\x20if (byAge) return colorFor(objectIn(g, cell), letter);\n\
    \x20\x20\x20\x20\x20\x20const alike = letter + (Math.floor(of / NAME) * 2 + of % 2);\n\
    \x20\x20\x20\x20\x20\x20if (!known.has(alike)) known.set(alike, colorFor(objectIn(g, cell), letter));\n\
    \x20\x20\x20\x20\x20\x20return value = known.get(alike);\n\
    \x20\x20\x20\x20};\n\
    \x20\x20}\n\
    \n\
    \x20\x20// A picture of which cells that are too small to be drawn are cut, with a pixel for as many words as the smallest cell has.\n\
    \x20\x20function atlas() {\n\
    \x20\x20\x20\x20if (M.atlas) return M.atlas;\n\
    \x20\x20\x20\x20const per = WORDS / M.lines / SIZES[0],\n\
    \x20\x20\x20\x20\x20\x20canvas = document.createElement(\"canvas\"),\n\
    \x20\x20\x20\x20\x20\x20c = canvas.getContext(\"2d\");\n\
    \x20\x20\x20\x20canvas.width = per * M.columns;\n\
    \x20\x20\x20\x20canvas.height = M.lines * Math.ceil(M.list.length / M.columns);\n\
    \x20\x20\x20\x20const image = c.createImageData(canvas.width, canvas.height),\n\
    \x20\x20\x20\x20\x20\x20out = new Uint32Array(image.data.buffer),\n\
    \x20\x20\x20\x20\x20\x20pixel = pixels();\n\
    \x20\x20\x20\x20M.list.forEach((g, i) => {\n\
    \x20\x20\x20\x20\x20\x20const corner = Math.floor(i / M.columns) * M.lines * canvas.width + (i % M.columns) * per,\n\
    \x20\x20\x20\x20\x20\x20\x20\x20wide = g.size / SIZES[0];\n\
    \x20\x20\x20\x20\x20\x20let left = 0,\n\
    \x20\x20\x20\x20\x20\x20\x20\x20cell = 0,\n\
    \x20\x20\x20\x20\x20\x20\x20\x20value = 0;\n\
    \x20\x20\x20\x20\x20\x20for (let line = 0; line < M.lines; line++)\n\
    \x20\x20\x20\x20\x20\x20\x20\x20for (let to = corner + line * canvas.width, end = to + per; to < end; to++) {\n\
    \x20\x20\x20\x20\x20\x20\x20\x20\x20\x20if (left === 0) {\n\
    \x20\x20\x20\x20\x20\x20\x20\x20\x20\x20\x20\x20value = pixel(g, cell++);\n\
    \x20\x20\x20\x20\x20\x20\x20\x20\x20\x20\x20\x20left = wide;\n\
    \x20\x20\x20\x20\x20\x20\x20\x20\x20\x20}\n\
    \x20\x20\x20\x20\x20\x20\x20\x20\x20\x20left--;\n\
    \x20\x20\x20\x20\x20\x20\x20\x20\x20\x20out[to] = value;\n\
    \x20\x20\x20\x20\x20\x20\x20\x20}\n\
    \x20\x20\x20\x20});\n\
    \x20\x20\x20\x20c.putImageData(image, 0, 0);\n\
    \x20\x20\x20\x20return M.atlas = canvas;\n\
    \x20\x20}\n\
    \n\
    \x20\x20// Calls f for each part of a region's cells that is in the box: its cell, and where it is; and whether the cell begins there.\n\
    \x20\x20function eachPart(x0, y0, size, f, from = 0, to = WORDS - 1) {\n\
    \x20\x20\x20\x20const per = WORDS / M.lines,\n\
    \x20\x20\x20\x20\x20\x20uw = M.unit * M.zoom,\n\
    \x20\x20\x20\x20\x20\x20lh = M.lh * M.zoom,\n\
    \x20\x20\x20\x20\x20\x20gx = uw * size > 4 ? 1 : 0,\n\
    \x20\x20\x20\x20\x20\x20gy = lh > 4 ? 1 : 0,\n\
    \x20\x20\x20\x20\x20\x20first = Math.max(0, Math.floor(-y0 / lh), Math.floor(from / per)),\n\
    \x20\x20\x20\x20\x20\x20last = Math.min(M.lines - 1, Math.floor((M.h - y0) / lh), Math.floor(to / per)),\n\
    \x20\x20\x20\x20\x20\x20left = Math.max(0, Math.floor(-x0 / uw)),\n\
    \x20\x20\x20\x20\x20\x20right = Math.min(per - 1, Math.floor((M.w - x0) / uw));\n\
    \x20\x20\x20\x20for (let line = first; line <= last; line++)\n\
    \x20\x20\x20\x20\x20\x20for (let word = Math.max(from, line * per + left); word <= Math.min(to, line * per + right);) {\n\
    \x20\x20\x20\x20\x20\x20\x20\x20const cell = Math.floor(word / size),\n\
    \x20\x20\x20\x20\x20\x20\x20\x20\x20\x20start = Math.max(cell * size, line * per),\n\
    \x20\x20\x20\x20\x20\x20\x20\x20\x20\x20end = Math.min((cell + 1) * size, (line + 1) * per),\n\
    \x20\x20\x20\x20\x20\x20\x20\x20\x20\x20whole = end === (cell + 1) * size;\n\
    \x20\x20\x20\x20\x20\x20\x20\x20f(cell, x0 + (start - line * per) * uw, y0 + line * lh, (end - start) * uw - gx, lh - (whole ? gy : 0), start === cell * size);\n\
    \x20\x20\x20\x20\x20\x20\x20\x20word = end;\n\
    \x20\x20\x20\x20\x20\x20}\n\
    \x20\x20}\n\
    \x20\x20const originOf = (i) => [(M.left + (i % M.columns) * (M.bw + M.gap) - M.x) * M.zoom, (Math.floor(i / M.columns) * (M.bh + M.gap) - M.y) * M.zoom];\n\
    \n\
    \x20\x20function drawMap() {\n\
    \x20\x20\x20\x20const { w, h } = M.box;\n\
    \x20\x20\x20\x20if (w < 1 || h < 1) return;\n\
    \x20\x20\x20\x20const c = fit($(\"map\"), w, h);\n\
    \x20\x20\x20\x20if (M.fresh || w !== M.w || h !== M.h) takeRegions(w, h);\n\
    \x20\x20\x20\x20clampView();\n\
    \x20\x20\x20\x20const z = M.zoom,\n\
    \x20\x20\x20\x20\x20\x20rows = Math.ceil(M.list.length / M.columns),\n\
    \x20\x20\x20\x20\x20\x20top = Math.max(0, Math.floor(M.y / (M.bh + M.gap))),\n\
    \x20\x20\x20\x20\x20\x20bottom = Math.min(rows - 1, Math.floor((M.y + h / z) / (M.bh + M.gap))),\n\
    \x20\x20\x20\x20\x20\x20left = Math.max(0, Math.floor((M.x - M.left) / (M.bw + M.gap))),\n\
    \x20\x20\x20\x20\x20\x20right = Math.min(M.columns - 1, Math.floor((M.x - M.left + w / z) / (M.bw + M.gap))),\n\
    \x20\x20\x20\x20\x20\x20small = 4 * M.unit * z < 2.6 || M.lh * z < 2.6,\n\
    \x20\x20\x20\x20\x20\x20per = WORDS / M.lines / SIZES[0];\n\
    \x20\x20\x20\x20M.drawn = Math.max(0, bottom - top + 1) * Math.max(0, right - left + 1);\n\
    \x20\x20\x20\x20c.imageSmoothingQuality = \"medium\";\n\
    \x20\x20\x20\x20c.imageSmoothingEnabled = SIZES[0] * M.unit * z < 1 || M.lh * z < 1;\n\
    \x20\x20\x20\x20if (small && M.gap < 2 && M.list.length) drawSheet(c, top, bottom, left, right);\n\
    \x20\x20\x20\x20else for (let row = top; row <= bottom; row++)\n\
    \x20\x20\x20\x20\x20\x20for (let column = left; column <= right; column++) {\n\
    \x20\x20\x20\x20\x20\x20\x20\x20const i = row * M.columns + column,\n\
    \x20\x20\x20\x20\x20\x20\x20\x20\x20\x20g = M.list[i];\n\
    \x20\x20\x20\x20\x20\x20\x20\x20if (!g) continue;\n\
    \x20\x20\x20\x20\x20\x20\x20\x20const [x0, y0] = originOf(i);\n\
    \x20\x20\x20\x20\x20\x20\x20\x20if (small) c.drawImage(atlas(), column * per, row * M.lines, per, M.lines, x0, y0, M.bw * z, M.bh * z);\n\
    \x20\x20\x20\x20\x20\x20\x20\x20else drawCells(c, g, x0, y0);\n\
    \x20\x20\x20\x20\x20\x20\x20\x20drawNumber(c, g, x0, y0);\n\
    \x20\x20\x20\x20\x20\x20}\n\
    \x20\x20\x20\x20drawRings(c);\n\
    \x20\x20\x20\x20drawMapNote();\n\
    \x20\x20\x20\x20drawLegend();\n\
    \x20\x20}\n\
    \n\
    \x20\x20// Draws thousands of small regions as one picture, with lines between them.\n\
    \x20\x20function drawSheet(c, top, bottom, left, right) {\n\
    \x20\x20\x20\x20const per = WORDS / M.lines / SIZES[0],\n\
    \x20\x20\x20\x20\x20\x20columns = right - left + 1,\n\
    \x20\x20\x20\x20\x20\x20rows = bottom - top + 1,\n\
    \x20\x20\x20\x20\x20\x20wide = (M.bw + M.gap) * M.zoom,\n\
    \x20\x20\x20\x20\x20\x20high = (M.bh + M.gap) * M.zoom,\n\
    \x20\x20\x20\x20\x20\x20[x0, y0] = originOf(top * M.columns + left);\n\
    \x20\x20\x20\x20c.drawImage(atlas(), left * per, top * M.lines, columns * per, rows * M.lines, x0, y0, columns * wide, rows * high);\n\
    \x20\x20\x20\x20c.fillStyle = M.ink.panel;\n\
    \x20\x20\x20\x20for (let i = 1; i <= columns; i++) c.fillRect(x0 + i * wide - M.gap * M.zoom, y0, M.gap * M.zoom, rows * high);\n\
    \x20\x20\x20\x20for (let i = 1; i <= rows; i++) c.fillRect(x0, y0 + i * high - M.gap * M.zoom, columns * wide, M.gap * M.zoom);\n\
    \x20\x20}\n\
    \n\
    \x20\x20function drawNumber(c, g, x0, y0) {\n\
    \x20\x20\x20\x20const high = M.bh * M.zoom;\n\
    \x20\x20\x20\x20c.font = \"11px \" + M.ink.mono;\n\
    \x20\x20\x20\x20c.textBaseline = \"top\";\n\
    \x20\x20\x20\x20c.fillStyle = g.sweep ? M.ink.red : M.ink.ink3;\n\
    \x20\x20\x20\x20if (M.left && x0 >= 26) {\n\
    \x20\x20\x20\x20\x20\x20c.textAlign = \"right\";\n\
    \x20\x20\x20\x20\x20\x20c.fillText(g.number, x0 - 8, Math.max(y0, Math.min(y0 + high - 12, 2)) + 1);\n\
    \x20\x20\x20\x20} else if (high >= 40 && M.bw * M.zoom >= 60) {\n\
    \x20\x20\x20\x20\x20\x20const text = \"region \" + g.number,\n\
    \x20\x20\x20\x20\x20\x20\x20\x20wide = c.measureText(text).width + 8,\n\
    \x20\x20\x20\x20\x20\x20\x20\x20x = Math.min(x0 + M.bw * M.zoom, M.w) - wide,\n\
    \x20\x20\x20\x20\x20\x20\x20\x20y = Math.max(y0, Math.min(0, y0 + high - 15));\n\
    \x20\x20\x20\x20\x20\x20if (x < x0) return;\n\
    \x20\x20\x20\x20\x20\x20c.globalAlpha = .85;\n\
    \x20\x20\x20\x20\x20\x20c.fillStyle = M.ink.panel;\n\
    \x20\x20\x20\x20\x20\x20c.fillRect(x, y, wide, 15);\n\
    \x20\x20\x20\x20\x20\x20c.globalAlpha = 1;\n\
    \x20\x20\x20\x20\x20\x20c.fillStyle = g.sweep ? M.ink.red : M.ink.ink3;\n\
    \x20\x20\x20\x20\x20\x20c.textAlign = \"left\";\n\
    \x20\x20\x20\x20\x20\x20c.fillText(text, x + 4, y + 2);\n\
    \x20\x20\x20\x20}\n\
    \x20\x20}\n\
    \n\
    \x20\x20function drawCells(c, g, x0, y0) {\n\
    \x20\x20\x20\x20const at = S.shown,\n\
    \x20\x20\x20\x20\x20\x20span = Math.max(1, at - S.oldest),\n\
    \x20\x20\x20\x20\x20\x20{ free, panel, ink, ink3, red } = M.ink;\n\
    \x20\x20\x20\x20eachPart(x0, y0, g.size, (cell, x, y, w, h, begins) => {\n\
    \x20\x20\x20\x20\x20\x20const { o, dead, marked, gray } = cellOf(g, cell);\n\
    \x20\x20\x20\x20\x20\x20if (!o) {\n\
    \x20\x20\x20\x20\x20\x20\x20\x20c.fillStyle = dead ? hatch(c, ink3, free) : free;\n\
    \x20\x20\x20\x20\x20\x20\x20\x20c.fillRect(x, y, w, h);\n\
    \x20\x20\x20\x20\x20\x20\x20\x20return;\n\
    \x20\x20\x20\x20\x20\x20}\n\
    \x20\x20\x20\x20\x20\x20const color = shadeOf(o, at, span),\n\
    \x20\x20\x20\x20\x20\x20\x20\x20hatched = o.lost && S.by === \"class\",\n\
    \x20\x20\x20\x20\x20\x20\x20\x20dim = S.klass && o.name !== S.klass;\n\
    \x20\x20\x20\x20\x20\x20c.globalAlpha = dim ? .16 : 1;\n\
    \x20\x20\x20\x20\x20\x20if (hatched) {\n\
    \x20\x20\x20\x20\x20\x20\x20\x20c.fillStyle = w > 5 && h > 5 ? hatch(c, color, mixed(color, panel, .18)) : mixed(color, panel, .45);\n\
    \x20\x20\x20\x20\x20\x20\x20\x20c.fillRect(x, y, w, h);\n\
    \x20\x20\x20\x20\x20\x20\x20\x20c.strokeStyle = color;\n\
    \x20\x20\x20\x20\x20\x20\x20\x20c.lineWidth = 1;\n\
    \x20\x20\x20\x20\x20\x20\x20\x20if (w > 3 && h > 3) c.strokeRect(x + .5, y + .5, w - 1, h - 1);\n\
    \x20\x20\x20\x20\x20\x20} else {\n\
    \x20\x20\x20\x20\x20\x20\x20\x20c.fillStyle = color;\n\
    \x20\x20\x20\x20\x20\x20\x20\x20c.fillRect(x, y, w, h);\n\
    \x20\x20\x20\x20\x20\x20}\n\
    \x20\x20\x20\x20\x20\x20c.globalAlpha = 1;\n\
    \x20\x20\x20\x20\x20\x20if (gray || marked) {\n\
    \x20\x20\x20\x20\x20\x20\x20\x20c.fillStyle = gray ? red : ink;\n\
    \x20\x20\x20\x20\x20\x20\x20\x20const high = Math.max(2, Math.min(5, h / 6));\n\
    \x20\x20\x20\x20\x20\x20\x20\x20c.fillRect(x, gray ? y : y + h - high, w, high);\n\
    \x20\x20\x20\x20\x20\x20}\n\
    \x20\x20\x20\x20\x20\x20if (begins && w >= 78 && h >= 33) drawLabel(c, o, x, y, w, h, hatched || dim ? panel : color, marked, gray);\n\
    \x20\x20\x20\x20});\n\
    \x20\x20}\n\
    \n\
    \x20\x20// Writes into a large cell what is in it.\n\
    \x20\x20function drawLabel(c, o, x, y, w, h, back, marked, gray) {\n\
    \x20\x20\x20\x20const [r, g, b] = rgb(back),\n\
    \x20\x20\x20\x20\x20\x20p = bornAt(o, S.shown),\n\
    \x20\x20\x20\x20\x20\x20lines = [idOf(o.w), o.name, `${num(o.slots)} slots`, p === null ? \"\" : `made @${num(p)}`, o.lost ? \"unreached\" : gray ? \"gray\" : marked ? \"marked\" : \"\"].filter((x) => x);\n\
    \x20\x20\x20\x20c.save();\n\
    \x20\x20\x20\x20c.beginPath();\n\
    \x20\x20\x20\x20c.rect(x, y, w, h);\n\
    \x20\x20\x20\x20c.clip();\n\
    \x20\x20\x20\x20c.font = \"11px \" + M.ink.mono;\n\
    \x20\x20\x20\x20c.textAlign = \"left\";\n\
    \x20\x20\x20\x20c.textBaseline = \"top\";\n\
    \x20\x20\x20\x20c.fillStyle = r * .3 + g * .59 + b * .11 > 140 ? \"#12151b\" : \"#ffffff\";\n\
    \x20\x20\x20\x20if (back === M.ink.panel) {\n\
    \x20\x20\x20\x20\x20\x20c.globalAlpha = .8;\n\
    \x20\x20\x20\x20\x20\x20c.fillStyle = back;\n\
    \x20\x20\x20\x20\x20\x20c.fillRect(x + 2, y + 3, Math.min(w - 4, 12 + Math.max(...lines.map((t) => c.measureText(t).width))), Math.min(h - 5, lines.length * 15 + 2));\n\
    \x20\x20\x20\x20\x20\x20c.globalAlpha = 1;\n\
    \x20\x20\x20\x20\x20\x20c.fillStyle = M.ink.ink;\n\
    \x20\x20\x20\x20}\n\
    \x20\x20\x20\x20const left = Math.max(x, 0) + 6;\n\
    \x20\x20\x20\x20lines.forEach((t, i) => y + 4 + i * 15 + 12 <= y + h && c.fillText(t, left, Math.max(y, 0) + 4 + i * 15));\n\
    \x20\x20\x20\x20c.restore();\n\
    \x20\x20}\n\
    \n\
    \x20\x20function drawRings(c) {\n\
    \x20\x20\x20\x20const ring = (id, color, width, dash) => {\n\
    \x20\x20\x20\x20\x20\x20const o = objectAt(id),\n\
    \x20\x20\x20\x20\x20\x20\x20\x20g = o && S.regions.get(Math.floor(o.w / WORDS));\n\
    \x20\x20\x20\x20\x20\x20for (const part of g ? partsOf(g) : []) {\n\
    \x20\x20\x20\x20\x20\x20\x20\x20const i = M.spot.get(part.number);\n\
    \x20\x20\x20\x20\x20\x20\x20\x20if (i !== undefined) ringCell(c, ...originOf(i), part.size, o.w % WORDS, color, width, dash);\n\
    \x20\x20\x20\x20\x20\x20}\n\
    \x20\x20\x20\x20};\n\
    \x20\x20\x20\x20for (const id of S.refs) ring(id, M.ink.ink, 1.2, [2, 2]);\n\
    \x20\x20\x20\x20for (const id of S.path) ring(id, M.ink.ink, 1.6);\n\
    \x20\x20\x20\x20if (S.sel) {\n\
    \x20\x20\x20\x20\x20\x20ring(S.sel, M.ink.panel, 4);\n\
    \x20\x20\x20\x20\x20\x20ring(S.sel, M.ink.red, 2.4);\n\
    \x20\x20\x20\x20}\n\
    \x20\x20\x20\x20if (M.cursor && document.activeElement === $(\"map\") && M.spot.has(M.cursor.number)) {\n\
    \x20\x20\x20\x20\x20\x20const i = M.spot.get(M.cursor.number),\n\
    \x20\x20\x20\x20\x20\x20\x20\x20[x0, y0] = originOf(i);\n\
    \x20\x20\x20\x20\x20\x20ringCell(c, x0, y0, M.list[i].size, M.cursor.cell * M.list[i].size, css(\"--accent\"), 2);\n\
    \x20\x20\x20\x20}\n\
    \x20\x20}\n\
    \n\
    \x20\x20// A ring is never so small that it can't be seen.\n\
    \x20\x20function ringCell(c, x0, y0, size, from, color, width, dash) {\n\
    \x20\x20\x20\x20c.strokeStyle = color;\n\
    \x20\x20\x20\x20c.lineWidth = width;\n\
    \x20\x20\x20\x20c.setLineDash(dash || []);\n\
    \x20\x20\x20\x20eachPart(x0, y0, size, (cell, x, y, w, h) => {\n\
    \x20\x20\x20\x20\x20\x20const more = Math.max(0, 7 - w) / 2,\n\
    \x20\x20\x20\x20\x20\x20\x20\x20tall = Math.max(0, 7 - h) / 2;\n\
    \x20\x20\x20\x20\x20\x20c.strokeRect(x - 1 - more, y - 1 - tall, w + 2 + 2 * more, h + 2 + 2 * tall);\n\
    \x20\x20\x20\x20}, from, from + size - 1);\n\
    \x20\x20\x20\x20c.setLineDash([]);\n\
    \x20\x20}\n\
    \n\
    \x20\x20function drawMapNote() {\n\
    \x20\x20\x20\x20const n = M.list.length,\n\
    \x20\x20\x20\x20\x20\x20all = S.status.regions || n,\n\
    \x20\x20\x20\x20\x20\x20zoomed = M.zoom > 1.001;\n\
    \x20\x20\x20\x20$(\"mapnote\").textContent = `${num(n)} of ${num(all)} in use` + (S.at === null ? \"\" : `, at @${num(S.at)}`) + (zoomed ? `, \xc3\x97${M.zoom < 10 ? M.zoom.toFixed(1) : num(Math.round(M.zoom))}` : \"\");\n\
    \x20\x20\x20\x20$(\"zoomout\").disabled = $(\"zoomall\").disabled = !zoomed;\n\
    \x20\x20\x20\x20$(\"zoomin\").disabled = M.zoom >= M.most * .999;\n\
    \x20\x20\x20\x20$(\"zoomcell\").disabled = !(S.sel && objectAt(S.sel));\n\
    \x20\x20}\n\
    \n\
    \x20\x20// Returns the cell at a point of the box, or null.\n\
    \x20\x20function cellAt(x, y) {\n\
    \x20\x20\x20\x20const wx = M.x + x / M.zoom - M.left,\n\
    \x20\x20\x20\x20\x20\x20wy = M.y + y / M.zoom,\n\
    \x20\x20\x20\x20\x20\x20column = Math.floor(wx / (M.bw + M.gap)),\n\
    \x20\x20\x20\x20\x20\x20row = Math.floor(wy / (M.bh + M.gap)),\n\
    \x20\x20\x20\x20\x20\x20g = M.list[row * M.columns + column],\n\
    \x20\x20\x20\x20\x20\x20per = WORDS / M.lines,\n\
    \x20\x20\x20\x20\x20\x20word = Math.floor((wx - column * (M.bw + M.gap)) / M.unit),\n\
    \x20\x20\x20\x20\x20\x20line = Math.floor((wy - row * (M.bh + M.gap)) / M.lh);\n\
    \x20\x20\x20\x20if (!g || column < 0 || column >= M.columns || word < 0 || word >= per || line < 0 || line >= M.lines) return null;\n\
    \x20\x20\x20\x20return { g, word: line * per + word, cell: Math.floor((line * per + word) / g.size) };\n\
    \x20\x20}\n\
    \n\
    \x20\x20function pointOf(e) {\n\
    \x20\x20\x20\x20const r = $(\"map\").getBoundingClientRect();\n\
    \x20\x20\x20\x20return [e.clientX - r.left, e.clientY - r.top];\n\
    \x20\x20}\n\
    \n\
    \x20\x20// Says what is in a cell.\n\
    \x20\x20function cellText({ g, cell }) {\n\
    \x20\x20\x20\x20const { o, dead, marked, gray } = cellOf(g, cell),\n\
    \x20\x20\x20\x20\x20\x20{ number, size } = g.whole || g,\n\
    \x20\x20\x20\x20\x20\x20id = idOf(number * WORDS + cell * size),\n\
    \x20\x20\x20\x20\x20\x20where = size > WORDS ? `regions ${number} to ${number + size / WORDS - 1}, one cell of ${size} words` : `region ${number}, cell ${cell} of ${size} words`;\n\
    \x20\x20\x20\x20if (!o) return `${where}\\n${id}: ${dead ? \"dead, waits to be swept\" : \"free\"}`;\n\
    \x20\x20\x20\x20const p = bornAt(o, S.shown),\n\
    \x20\x20\x20\x20\x20\x20made = p === null ? \"\" : `\\nmade @${num(p)}, ${num(S.shown - p)} steps ago`;\n\
    \x20\x20\x20\x20return `${where}\\n${o.name}\\n${id}, ${num(o.slots)} slots${made}\\n${o.lost ? \"no register reaches it\" : \"reached\"}` + (gray ? \", gray\" : marked ? \", marked\" : \"\");\n\
    \x20\x20}\n\
    \n\
    \x20\x20function showTip(tip, text, x, y) {\n\
    \x20\x20\x20\x20tip.hidden = false;\n\
    \x20\x20\x20\x20tip.textContent = text;\n\
    \x20\x20\x20\x20const r = tip.getBoundingClientRect();\n\
    \x20\x20\x20\x20tip.style.left = Math.max(4, Math.min(innerWidth - r.width - 8, x + 14)) + \"px\";\n\
    \x20\x20\x20\x20tip.style.top = Math.max(4, Math.min(innerHeight - r.height - 8, y + 14)) + \"px\";\n\
    \x20\x20}\n\
    \n\
    \x20\x20// Moves the cursor of the keyboard: by a cell, or by a line.\n\
    \x20\x20function moveCursor(dx, dy) {\n\
    \x20\x20\x20\x20if (!M.list.length) return;\n\
    \x20\x20\x20\x20const per = WORDS / M.lines;\n\
    \x20\x20\x20\x20if (!M.cursor || !M.spot.has(M.cursor.number)) {\n\
    \x20\x20\x20\x20\x20\x20const o = S.sel && objectAt(S.sel),\n\
    \x20\x20\x20\x20\x20\x20\x20\x20g = o ? S.regions.get(Math.floor(o.w / WORDS)) : M.list[0];\n\
    \x20\x20\x20\x20\x20\x20M.cursor = { number: g.number, cell: o ? (o.w % WORDS) / g.size : 0 };\n\
    \x20\x20\x20\x20} else {\n\
    \x20\x20\x20\x20\x20\x20let i = M.spot.get(M.cursor.number),\n\
    \x20\x20\x20\x20\x20\x20\x20\x20g = M.list[i],\n\
    \x20\x20\x20\x20\x20\x20\x20\x20word = M.cursor.cell * g.size + (dx > 0 ? g.size : dx < 0 ? -1 : 0) + dy * Math.max(per, dy > 0 ? g.size : 1);\n\
    \x20\x20\x20\x20\x20\x20if (word < 0 || word >= WORDS) {\n\
    \x20\x20\x20\x20\x20\x20\x20\x20i += (word < 0 ? -1 : 1) * (dx ? 1 : M.columns);\n\
    \x20\x20\x20\x20\x20\x20\x20\x20if (i < 0 || i >= M.list.length) return;\n\
    \x20\x20\x20\x20\x20\x20\x20\x20word = (word + WORDS) % WORDS;\n\
    \x20\x20\x20\x20\x20\x20\x20\x20g = M.list[i];\n\
    \x20\x20\x20\x20\x20\x20}\n\
    \x20\x20\x20\x20\x20\x20M.cursor = { number: g.number, cell: Math.floor(word / g.size) };\n\
    \x20\x20\x20\x20}\n\
    \x20\x20\x20\x20const { number, cell } = M.cursor,\n\
    \x20\x20\x20\x20\x20\x20g = M.list[M.spot.get(number)];\n\
    \x20\x20\x20\x20let seen = null;\n\
    \x20\x20\x20\x20const [x0, y0] = originOf(M.spot.get(number));\n\
    \x20\x20\x20\x20eachPart(x0, y0, g.size, (c, x, y, w, h) => seen = seen || [x, y, w, h], cell * g.size, (cell + 1) * g.size - 1);\n\
    \x20\x20\x20\x20if (!seen || seen[0] < 0 || seen[1] < 0 || seen[0] + seen[2] > M.w || seen[1] + seen[3] > M.h) centre(number, cell * g.size);\n\
    \x20\x20\x20\x20drawMap();\n\
    \x20\x20\x20\x20const r = $(\"map\").getBoundingClientRect(),\n\
    \x20\x20\x20\x20\x20\x20[x, y] = seen || [M.w / 2, M.h / 2];\n\
    \x20\x20\x20\x20showTip($(\"maptip\"), cellText({ g, cell }), r.left + x, r.top + y);\n\
    \x20\x20\x20\x20$(\"map\").setAttribute(\"aria-label\", cellText({ g, cell }));\n\
    \x20\x20}\n\
    \n\
    \x20\x20function drawLegend() {\n\
    \x20\x20\x20\x20const now = [S.by, S.at === null, S.status.phase, S.status.unswept > 0, css(\"--ink\"), ...S.hist.slice(0, 7).map((r) => r.name + colorOf(r.name))].join();\n\
    \x20\x20\x20\x20if (now === M.legend) return;\n\
    \x20\x20\x20\x20M.legend = now;\n\
    \x20\x20\x20\x20const item = (text, background, look) => {\n\
    \x20\x20\x20\x20\x20\x20\x20\x20const s = el(\"span\"),\n\
    \x20\x20\x20\x20\x20\x20\x20\x20\x20\x20i = el(\"i\");\n\
    \x20\x20\x20\x20\x20\x20\x20\x20Object.assign(i.style, { background }, look);\n\
    \x20\x20\x20\x20\x20\x20\x20\x20s.append(i, text);\n\
    \x20\x20\x20\x20\x20\x20\x20\x20return s;\n\
    \x20\x20\x20\x20\x20\x20},\n\
    \x20\x20\x20\x20\x20\x20hatched = (color, back) => `repeating-linear-gradient(135deg, ${color} 0 1.3px, ${back} 1.3px 4.2px)`,\n\
    \x20\x20\x20\x20\x20\x20out = [];\n\
    \x20\x20\x20\x20if (S.by === \"age\") {\n\
    \x20\x20\x20\x20\x20\x20const s = el(\"span\"),\n\
    \x20\x20\x20\x20\x20\x20\x20\x20i = el(\"i\");\n\
    \x20\x20\x20\x20\x20\x20i.id = \"ramp\";\n\
    \x20\x20\x20\x20\x20\x20i.style.background = `linear-gradient(90deg, ${[4, 3, 2, 1, 0].map((k) => ramp(1 - k / 4)).join()})`;\n\
    \x20\x20\x20\x20\x20\x20s.append(\"just made\", i, \"old\");\n\
    \x20\x20\x20\x20\x20\x20out.push(s, item(\"made before what is retained\", ANCIENT));\n\
    \x20\x20\x20\x20} else {\n\
    \x20\x20\x20\x20\x20\x20for (const r of S.hist.slice(0, 7)) out.push(item(r.name, colorOf(r.name)));\n\
    \x20\x20\x20\x20\x20\x20out.push(item(\"unreached\", hatched(OTHER, mixed(OTHER, M.ink.panel, .18)), { boxShadow: \"inset 0 0 0 1px \" + OTHER }));\n\
    \x20\x20\x20\x20}\n\
    \x20\x20\x20\x20out.push(item(\"free cell\", M.ink.free));\n\
    \x20\x20\x20\x20if (S.at === null && (S.status.phase === \"marking\" || S.status.unswept))\n\
    \x20\x20\x20\x20\x20\x20out.push(item(\"marked\", OTHER, { borderBottom: \"2px solid \" + M.ink.ink }), item(\"gray\", OTHER, { borderTop: \"2px solid \" + M.ink.red }),\n\
    \x20\x20\x20\x20\x20\x20\x20\x20item(\"dead\", hatched(M.ink.ink3, M.ink.free)));\n\
    \x20\x20\x20\x20$(\"legend\").replaceChildren(...out);\n\
    \x20\x20}\n\
    \n\
    \x20\x20// ---- steps\n\
    \x20\x20const wasOf = (w) => w.startsWith(\"0x\") ? [el(\"span\", \"dim\", \"was \"), idLink(w)] : [el(\"span\", \"dim\", \"was \" + w)];\n\
    \n\
    \x20\x20const wrote = (w) => {\n\
    \x20\x20\x20\x20const box = el(\"span\"),\n\
    \x20\x20\x20\x20\x20\x20shown = w.startsWith(\"0x\") ? idLink(w) : w;\n\
    \x20\x20\x20\x20if (w.startsWith(\"0x\")) shown.tabIndex = -1;\n\
    \x20\x20\x20\x20box.append(\"= \", shown, \" \");\n\
    \x20\x20\x20\x20return box;\n\
    \x20\x20};\n\
    \n\
    \x20\x20function told(e) {\n\
    \x20\x20\x20\x20const w = wordsOf(e),\n\
    \x20\x20\x20\x20\x20\x20dim = (t) => el(\"span\", \"dim\", t);\n\
    \x20\x20\x20\x20if (e.kind === \"put\" || e.kind === \"store\") return [idLink(w[1]), el(\"span\", \"\", nameOfSlot(w[1], w[2])), \" \", wrote(w[4]), ...wasOf(w[3])];\n\
    \x20\x20\x20\x20if (e.kind === \"reg\") return [el(\"span\", \"\", `register ${w[2]} of mutator ${w[1]}`), \" \", wrote(w[4]), ...wasOf(w[3])];\n\
    \x20\x20\x20\x20if (e.kind === \"new\") return [idLink(w[1]), dim(` ${w[5]} in register ${w[3]} of mutator ${w[2]}`)];\n\
    \x20\x20\x20\x20if (e.kind === \"mark\") return [idLink(w[1]), dim(` ${w[2]} pushed`)];\n\
    \x20\x20\x20\x20if (e.kind === \"sweep\") return [el(\"span\", \"\", \"region \" + w[1]), dim(`, ${w[2]} removed`)];\n\
    \x20\x20\x20\x20if (e.kind === \"reclaim\") return [el(\"span\", \"\", \"region \" + w[1]), dim(\", given back to the pool\")];\n\
    \x20\x20\x20\x20return [dim(w.slice(1).join(\" \"))];\n\
    \x20\x20}\n\
    \n\
    \x20\x20function stepRow(e, at) {\n\
    \x20\x20\x20\x20const p = e.p,\n\
    \x20\x20\x20\x20\x20\x20row = el(\"div\", \"step\" + (p === at ? \" now\" : p > at ? \" later\" : \"\")),\n\
    \x20\x20\x20\x20\x20\x20text = el(\"span\"),\n\
    \x20\x20\x20\x20\x20\x20ev = el(\"span\", \"ev\", e.kind);\n\
    \x20\x20\x20\x20ev.style.setProperty(\"--c\", EVENTS[e.kind]);\n\
    \x20\x20\x20\x20text.append(ev, \" \", ...told(e));\n\
    \x20\x20\x20\x20row.append(el(\"span\", \"p\", \"@\" + num(p)), text);\n\
    \x20\x20\x20\x20row.title = \"Show the heap just after this step\";\n\
    \x20\x20\x20\x20for (const a of row.querySelectorAll(\"a\")) a.tabIndex = -1;\n\
    \x20\x20\x20\x20row.onclick = () => go(p);\n\
    \x20\x20\x20\x20return row;\n\
    \x20\x20}\n\
    \n\
    \x20\x20// The row below the steps that are listed.\n\
    \x20\x20function olderRow(count) {\n\
    \x20\x20\x20\x20const more = el(\"div\", \"step dim\", \"\");\n\
    \x20\x20\x20\x20more.append(el(\"span\"), `\xe2\x80\xa6 ${num(count)} older steps`);\n\
    \x20\x20\x20\x20more.onclick = () => {\n\
    \x20\x20\x20\x20\x20\x20S.more += 200;\n\
    \x20\x20\x20\x20\x20\x20drawSteps();\n\
    \x20\x20\x20\x20};\n\
    \x20\x20\x20\x20return more;\n\
    \x20\x20}\n\
    \n\
    \x20\x20// How often the steps were drawn, and how high what can be seen of them is, at most as long as it isn't known.\n\
    \x20\x20let turns = 0,\n\
    \x20\x20\x20\x20stepsHigh = innerHeight * .4;\n\
    \n\
    \x20\x20// Draws the steps that can be seen without scrolling, and then, once these are on the screen, the others.\n\
    \x20\x20function drawSteps() {\n\
    \x20\x20\x20\x20const at = atPlace(),\n\
    \x20\x20\x20\x20\x20\x20last = Math.max(S.first, at - 30 - S.more),\n\
    \x20\x20\x20\x20\x20\x20to = Math.min(S.place, at + 4),\n\
    \x20\x20\x20\x20\x20\x20from = isFar($(\"steps\")) ? last : Math.max(last, to - Math.ceil(stepsHigh / 21)),\n\
    \x20\x20\x20\x20\x20\x20turn = ++turns;\n\
    \x20\x20\x20\x20$(\"steps\").replaceChildren(...stepRows(to, from, at));\n\
    \x20\x20\x20\x20$(\"stepnote\").textContent = S.events.length ? \"what each wrote and what was there, newest first\" : S.place > S.oldest ? \"\xe2\x80\xa6\" : \"no step is retained\";\n\
    \x20\x20\x20\x20const drawOlder = () => {\n\
    \x20\x20\x20\x20\x20\x20if (turn !== turns) return;\n\
    \x20\x20\x20\x20\x20\x20$(\"steps\").append(...stepRows(from - 1, last, at));\n\
    \x20\x20\x20\x20\x20\x20if (last > S.first) $(\"steps\").append(olderRow(last - S.first));\n\
    \x20\x20\x20\x20};\n\
    \x20\x20\x20\x20if (from === last) drawOlder();\n\
    \x20\x20\x20\x20else afterPaint(drawOlder);\n\
    \x20\x20}\n\
    \n\
    \x20\x20function stepRows(to, from, at) {\n\
    \x20\x20\x20\x20const out = [];\n\
    \x20\x20\x20\x20for (let p = to; p >= from; p--)\n\
    \x20\x20\x20\x20\x20\x20if (eventAt(p)) out.push(stepRow(eventAt(p), at));\n\
    \x20\x20\x20\x20return out;\n\
    \x20\x20}\n\
    \n\
    \x20\x20// ---- object\n\
    \x20\x20function pick(id, back) {\n\
    \x20\x20\x20\x20if (!back && S.sel && S.sel !== id) S.trail.push(S.sel);\n\
    \x20\x20\x20\x20if (S.sel !== id) S.most = SLOTS;\n\
    \x20\x20\x20\x20S.sel = id;\n\
    \x20\x20\x20\x20keepWatch(id);\n\
    \x20\x20\x20\x20S.path = new Set();\n\
    \x20\x20\x20\x20S.refs = new Set();\n\
    \x20\x20\x20\x20$(\"back\").hidden = !S.trail.length;\n\
    \x20\x20\x20\x20drawInstances();\n\
    \x20\x20\x20\x20drawMap();\n\
    \x20\x20\x20\x20drawLine();\n\
    \x20\x20\x20\x20if (id) return inspect(id);\n\
    \x20\x20\x20\x20drawRegisters();\n\
    \x20\x20}\n\
    \n\
    \x20\x20function goBack() {\n\
    \x20\x20\x20\x20if (S.trail.length) pick(S.trail.pop(), true);\n\
    \x20\x20}\n\
    \x20\x20// What there is before an object is picked: the registers, from which all that is alive is reached.\n\
    \x20\x20function drawRegisters() {\n\
    \x20\x20\x20\x20const box = $(\"insp\"),\n\
    \x20\x20\x20\x20\x20\x20hint = el(\"div\", \"empty\");\n\
    \x20\x20\x20\x20for (const [tag, text] of [[\"\", \"Pick an object: a cell of a region, or an instance. Here you see \"], [\"b\", \"its fields\"], [\"\", \", \"], [\"b\", \"why it is alive\"], [\"\", \", \"], [\"b\", \"who names it\"], [\"\", \", and \"], [\"b\", \"which step wrote each field\"], [\"\", \".\"]]) hint.append(tag ? el(tag, \"\", text) : text);\n\
    \x20\x20\x20\x20const sub = el(\"div\", \"sub\", \"Registers\"),\n\
    \x20\x20\x20\x20\x20\x20list = el(\"div\", \"path flat\");\n\
    \x20\x20\x20\x20sub.append(el(\"small\", \"\", S.regs.length ? \"what is alive is reached from them\" : \"all are null\"));\n\
    \x20\x20\x20\x20for (const [m, r, id, name] of S.regs.slice(0, 128)) {\n\
    \x20\x20\x20\x20\x20\x20const d = el(\"div\", \"n reg\"),\n\
    \x20\x20\x20\x20\x20\x20\x20\x20b = el(\"div\");\n\
    \x20\x20\x20\x20\x20\x20d.append(el(\"i\"), b);\n\
    \x20\x20\x20\x20\x20\x20b.append(`register ${r} of mutator ${m} `, idLink(id), el(\"span\", \"mid\", \" \" + name));\n\
    \x20\x20\x20\x20\x20\x20list.append(d);\n\
    \x20\x20\x20\x20}\n\
    \x20\x20\x20\x20keepFocus(box, () => box.replaceChildren(hint, sub, list));\n\
    \x20\x20\x20\x20$(\"inspnote\").textContent = S.at === null ? \"\" : `as it was at @${num(S.at)}`;\n\
    \x20\x20}\n\
    \x20\x20// Asks for `count` slots of an object, from slot `first` on.\n\
    \x20\x20async function fieldsOf(id, first, count) {\n\
    \x20\x20\x20\x20const r = await ask(`show ${atWord()} ${id} ${first} ${count}`);\n\
    \x20\x20\x20\x20return r.ok ? {\n\
    \x20\x20\x20\x20\x20\x20name: r.words[2],\n\
    \x20\x20\x20\x20\x20\x20count: +r.words[3],\n\
    \x20\x20\x20\x20\x20\x20slots: r.rows.map((x) => ({ slot: +x[0], name: x[1], kind: x[2], value: x[3] }))\n\
    \x20\x20\x20\x20} : null;\n\
    \x20\x20}\n\
    \x20\x20const nameOfSlot = (id, slot) => {\n\
    \x20\x20\x20\x20const o = objectAt(id);\n\
    \x20\x20\x20\x20let c = o && S.classOf.get(o.name),\n\
    \x20\x20\x20\x20\x20\x20rest = +slot;\n\
    \x20\x20\x20\x20while (c && c.up !== \"array\") {\n\
    \x20\x20\x20\x20\x20\x20if (rest < c.fields.length) return \".\" + c.fields[rest];\n\
    \x20\x20\x20\x20\x20\x20rest -= c.fields.length;\n\
    \x20\x20\x20\x20\x20\x20c = S.classes.get(+c.up);\n\
    \x20\x20\x20\x20}\n\
    \x20\x20\x20\x20return \"[\" + slot + \"]\";\n\
    \x20\x20};\n\
    \x20\x20const isArray = (name) => name.startsWith(\"[\") || name.endsWith(\"[]\");\n\
    \x20\x20let inspecting = 0;\n\
    \x20\x20async function inspect(id, quiet) {\n\
    \x20\x20\x20\x20const turn = ++inspecting,\n\
    \x20\x20\x20\x20\x20\x20box = $(\"insp\"),\n\
    \x20\x20\x20\x20\x20\x20at = atPlace(),\n\
    \x20\x20\x20\x20\x20\x20word = atWord(),\n\
    \x20\x20\x20\x20\x20\x20live = S.at === null;\n\
    \x20\x20\x20\x20if (!quiet) box.replaceChildren(el(\"div\", \"empty\", \"\xe2\x80\xa6\"));\n\
    \x20\x20\x20\x20const [me, born, path, refs] = await Promise.all([fieldsOf(id, 0, S.most), live ? ask(\"born \" + id, true) : null, ask(`path ${atWord()} ${id}`, true),\n\
    \x20\x20\x20\x20\x20\x20ask(`referrers ${atWord()} ${id}`, true)\n\
    \x20\x20\x20\x20]);\n\
    \x20\x20\x20\x20const dropped = live && me && !path.ok ? await ask(\"dropped \" + id, true) : null;\n\
    \x20\x20\x20\x20if (turn !== inspecting) return;\n\
    \x20\x20\x20\x20if (!me) {\n\
    \x20\x20\x20\x20\x20\x20S.path = S.refs = new Set();\n\
    \x20\x20\x20\x20\x20\x20const text = el(\"div\", \"empty\", `${id} is no live object at @${num(at)}.`),\n\
    \x20\x20\x20\x20\x20\x20\x20\x20list = S.born.get(wordOf(id)) || [],\n\
    \x20\x20\x20\x20\x20\x20\x20\x20near = list.find((p) => p > at) ?? list[list.length - 1];\n\
    \x20\x20\x20\x20\x20\x20if (near !== undefined) text.append(\" It was made at \", placeLink(near), \".\");\n\
    \x20\x20\x20\x20\x20\x20box.replaceChildren(text);\n\
    \x20\x20\x20\x20\x20\x20$(\"inspnote\").textContent = \"\";\n\
    \x20\x20\x20\x20\x20\x20return;\n\
    \x20\x20\x20\x20}\n\
    \x20\x20\x20\x20const scrolled = box.scrollTop,\n\
    \x20\x20\x20\x20\x20\x20slots = el(\"div\"),\n\
    \x20\x20\x20\x20\x20\x20out = [headOf(id, me, born, path, dropped, at), slots, writesOf(), ...pathOf(id, path), ...referrersOf(refs)];\n\
    \x20\x20\x20\x20S.writers = [];\n\
    \x20\x20\x20\x20slots.append(...slotsOf(id, me, (more) => writers(id, more, turn, at, live).catch(() => {}), turn));\n\
    \x20\x20\x20\x20keepFocus(box, () => box.replaceChildren(...out));\n\
    \x20\x20\x20\x20if (quiet) box.scrollTop = scrolled;\n\
    \x20\x20\x20\x20$(\"inspnote\").textContent = live ? \"\" : `as it was at @${num(at)}`;\n\
    \x20\x20\x20\x20drawMap();\n\
    \x20\x20\x20\x20loadWriters();\n\
    \x20\x20\x20\x20if (S.watch) loadWrites().catch(() => {});\n\
    \x20\x20\x20\x20if (path.ok) afterPaint(() => retainedBy(id, word, turn).catch(() => {}));\n\
    \x20\x20}\n\
    \n\
    \x20\x20// Fills in what an object retains, once all else of it is on the screen. While the heap goes on, what was there before stays until then.\n\
    \x20\x20async function retainedBy(id, word, turn) {\n\
    \x20\x20\x20\x20if (turn !== inspecting) return;\n\
    \x20\x20\x20\x20const r = await ask(`retained ${word} ${id}`, true),\n\
    \x20\x20\x20\x20\x20\x20[, objects, bytes] = r.words,\n\
    \x20\x20\x20\x20\x20\x20of = r.rows.slice(0, 12).map((x) => `\\n${num(x[0])} ${x[2]}, ${num(x[1])} bytes`),\n\
    \x20\x20\x20\x20\x20\x20box = $(\"retains\");\n\
    \x20\x20\x20\x20S.later = r.ms;\n\
    \x20\x20\x20\x20if (turn !== inspecting) return;\n\
    \x20\x20\x20\x20S.retains = { id, text: r.ok ? `retains ${num(objects)} object${objects === \"1\" ? \"\" : \"s\"}, ${num(bytes)} bytes` : \"\", bytes: r.ok ? +bytes : 0 };\n\
    \x20\x20\x20\x20box.replaceChildren(...retainedText());\n\
    \x20\x20\x20\x20box.title = \"What is reached and would not be without this object, itself among them:\" + of.join(\"\") + (r.rows.length > 12 ? \"\\n\xe2\x80\xa6\" : \"\");\n\
    \x20\x20}\n\
    \n\
    \x20\x20// What the picked object retains, with a bar of how much of the heap that is.\n\
    \x20\x20function retainedText() {\n\
    \x20\x20\x20\x20const { text, bytes } = S.retains,\n\
    \x20\x20\x20\x20\x20\x20bar = el(\"span\", \"share\"),\n\
    \x20\x20\x20\x20\x20\x20part = el(\"b\");\n\
    \x20\x20\x20\x20bar.title = bar.ariaLabel = percent(bytes);\n\
    \x20\x20\x20\x20bar.role = \"img\";\n\
    \x20\x20\x20\x20part.style.width = 100 * shareOf(bytes) + \"%\";\n\
    \x20\x20\x20\x20part.style.background = colorOf(objectAt(S.sel)?.name);\n\
    \x20\x20\x20\x20bar.append(part);\n\
    \x20\x20\x20\x20return text ? [text, bar] : [];\n\
    \x20\x20}\n\
    \n\
    \x20\x20function headOf(id, me, born, path, dropped, at) {\n\
    \x20\x20\x20\x20const head = el(\"div\", \"head\"),\n\
    \x20\x20\x20\x20\x20\x20t = el(\"div\", \"t\"),\n\
    \x20\x20\x20\x20\x20\x20s = el(\"div\", \"s\"),\n\
    \x20\x20\x20\x20\x20\x20made = el(\"span\"),\n\
    \x20\x20\x20\x20\x20\x20p = born ? (born.words[1] === \"place\" ? +born.words[2] : null) : bornAt({ w: wordOf(id) }, at);\n\
    \x20\x20\x20\x20t.append(swatch(colorOf(me.name)), me.name);\n\
    \x20\x20\x20\x20made.append(\"made \", p === null ? (S.whole || born ? \"before what is retained\" : \"\xe2\x80\xa6\") : placeLink(p));\n\
    \x20\x20\x20\x20s.append(el(\"span\", \"mono\", id), el(\"span\", \"\", `${num(me.count)} ${isArray(me.name) ? \"elements\" : \"slots\"}`), made);\n\
    \x20\x20\x20\x20const chip = el(\"span\", path.ok ? \"chip ok\" : \"chip warn\", path.ok ? \"reached\" : \"unreached\");\n\
    \x20\x20\x20\x20if (dropped && dropped.words[1] === \"place\") chip.append(\" since \", placeLink(+dropped.words[2]));\n\
    \x20\x20\x20\x20const retains = el(\"span\");\n\
    \x20\x20\x20\x20retains.append(...!path.ok ? [] : S.retains.id === id && S.at === null ? retainedText() : [\"retains \xe2\x80\xa6\"]);\n\
    \x20\x20\x20\x20retains.id = \"retains\";\n\
    \x20\x20\x20\x20s.append(chip, retains);\n\
    \x20\x20\x20\x20const w = wordOf(id),\n\
    \x20\x20\x20\x20\x20\x20g = S.regions.get(Math.floor(w / WORDS)),\n\
    \x20\x20\x20\x20\x20\x20cell = g && cellOf(g, (w % WORDS) / g.size);\n\
    \x20\x20\x20\x20if (cell && (cell.marked || cell.gray)) s.append(el(\"span\", \"chip\", cell.gray ? \"gray\" : \"marked\"));\n\
    \x20\x20\x20\x20head.append(t, s);\n\
    \x20\x20\x20\x20return head;\n\
    \x20\x20}\n\
    \n\
    \x20\x20// Returns the slots of an object, with a line to click if it has more.\n\
    \x20\x20function slotsOf(id, me, tell, turn) {\n\
    \x20\x20\x20\x20const bytes = me.slots.length > 8 && me.slots.every((x) => x.kind === \"byte\"),\n\
    \x20\x20\x20\x20\x20\x20list = bytes ? el(\"div\", \"bytes\") : fieldTable(),\n\
    \x20\x20\x20\x20\x20\x20title = bytes ? \"Bytes\" : isArray(me.name) ? \"Elements\" : \"Fields\",\n\
    \x20\x20\x20\x20\x20\x20more = el(\"div\", \"empty\");\n\
    \x20\x20\x20\x20addSlots(list, me, me.slots, tell);\n\
    \x20\x20\x20\x20leadOn(id, me, more, async () => {\n\
    \x20\x20\x20\x20\x20\x20S.most = me.slots.length + SLOTS;\n\
    \x20\x20\x20\x20\x20\x20const next = await fieldsOf(id, me.slots.length, SLOTS);\n\
    \x20\x20\x20\x20\x20\x20if (!next || turn !== inspecting) return;\n\
    \x20\x20\x20\x20\x20\x20addSlots(list, me, next.slots, tell);\n\
    \x20\x20\x20\x20\x20\x20me.slots.push(...next.slots);\n\
    \x20\x20\x20\x20\x20\x20loadWriters();\n\
    \x20\x20\x20\x20});\n\
    \x20\x20\x20\x20return [el(\"div\", \"sub\", title), list, more];\n\
    \x20\x20}\n\
    \n\
    \x20\x20// Writes below the slots that are listed how many more there are, and lists the next ones at a click.\n\
    \x20\x20function leadOn(id, me, box, act) {\n\
    \x20\x20\x20\x20const rest = me.count - me.slots.length,\n\
    \x20\x20\x20\x20\x20\x20next = link(`\xe2\x80\xa6 ${num(rest)} more`, \"List the next slots\", () => act().then(() => leadOn(id, me, box, act)).catch(() => {}));\n\
    \x20\x20\x20\x20next.dataset.row = \"more slots\";\n\
    \x20\x20\x20\x20box.hidden = !rest;\n\
    \x20\x20\x20\x20keepFocus(box, () => box.replaceChildren(...rest ? [next] : []));\n\
    \x20\x20}\n\
    \n\
    \x20\x20function fieldTable() {\n\
    \x20\x20\x20\x20const table = el(\"table\", \"fields\"),\n\
    \x20\x20\x20\x20\x20\x20row = el(\"tr\");\n\
    \x20\x20\x20\x20for (const x of [\"Name\", \"Kind\", \"Value\", \"Written at\"]) row.append(el(\"th\", \"\", x));\n\
    \x20\x20\x20\x20table.createTHead().append(row);\n\
    \x20\x20\x20\x20table.createTBody();\n\
    \x20\x20\x20\x20return table;\n\
    \x20\x20}\n\
    \n\
    \x20\x20// Adds slots of an object to those that are listed.\n\
    \x20\x20function addSlots(list, me, slots, tell) {\n\
    \x20\x20\x20\x20if (list.tBodies) tell(slots.map((x) => slotRow(list.tBodies[0], me, x)));\n\
    \x20\x20\x20\x20else list.append(...bytesOf(slots));\n\
    \x20\x20}\n\
    \n\
    \x20\x20// Adds the row of a slot. Returns where it says which step wrote it.\n\
    \x20\x20function slotRow(body, me, x) {\n\
    \x20\x20\x20\x20const tr = rowOf(\"slot \" + x.slot, \"pick\" + (isWatched(x.slot) ? \" on\" : \"\"), () => watchField(me.name, x)),\n\
    \x20\x20\x20\x20\x20\x20v = el(\"td\"),\n\
    \x20\x20\x20\x20\x20\x20cell = el(\"td\", \"mid\", \"\");\n\
    \x20\x20\x20\x20tr.title = \"Show all its writes on the time line\";\n\
    \x20\x20\x20\x20tr.ariaSelected = isWatched(x.slot);\n\
    \x20\x20\x20\x20if (x.value === \"null\" || x.value === \"0\") v.append(el(\"span\", \"dim\", x.value));\n\
    \x20\x20\x20\x20else if (x.kind === \"object\") {\n\
    \x20\x20\x20\x20\x20\x20const o = objectAt(x.value);\n\
    \x20\x20\x20\x20\x20\x20v.append(idLink(x.value), o ? el(\"span\", \"mid\", \" \" + o.name) : \"\");\n\
    \x20\x20\x20\x20\x20\x20v.title = o ? o.name : \"\";\n\
    \x20\x20\x20\x20} else v.append(x.value);\n\
    \x20\x20\x20\x20tr.append(el(\"td\", \"\", x.name), el(\"td\", \"dim\", x.kind), v, cell);\n\
    \x20\x20\x20\x20body.append(tr);\n\
    \x20\x20\x20\x20return { slot: x.slot, cell, place: (p) => link(\"@\" + num(p), \"Show the heap at this place, and all writes of the field\", () => goWatching(p, me.name, x)) };\n\
    \x20\x20}\n\
    \n\
    \x20\x20// Returns lines of eight bytes each.\n\
    \x20\x20function bytesOf(slots) {\n\
    \x20\x20\x20\x20const out = [];\n\
    \x20\x20\x20\x20for (let i = 0; i < slots.length; i += 8) {\n\
    \x20\x20\x20\x20\x20\x20const part = slots.slice(i, i + 8),\n\
    \x20\x20\x20\x20\x20\x20\x20\x20row = el(\"div\");\n\
    \x20\x20\x20\x20\x20\x20row.append(el(\"b\", \"\", part[0].slot.toString(16).padStart(4, \"0\") + \"  \"));\n\
    \x20\x20\x20\x20\x20\x20for (const x of part) row.append(el(\"span\", x.value === \"0\" ? \"z\" : \"\", (+x.value).toString(16).padStart(2, \"0\") + \" \"));\n\
    \x20\x20\x20\x20\x20\x20row.append(el(\"b\", \"\", \" \" + \"   \".repeat(8 - part.length) + part.map((x) => +x.value >= 32 && +x.value < 127 ? String.fromCharCode(+x.value) : \"\xc2\xb7\").join(\"\")));\n\
    \x20\x20\x20\x20\x20\x20out.push(row);\n\
    \x20\x20\x20\x20}\n\
    \x20\x20\x20\x20return out;\n\
    \x20\x20}\n\
    \n\
    \x20\x20// Fills in which step wrote each of some slots: by the heap's answers, once it can be seen, or of a past state by its steps.\n\
    \x20\x20async function writers(id, written, turn, at, live) {\n\
    \x20\x20\x20\x20if (live) {\n\
    \x20\x20\x20\x20\x20\x20for (const x of written) x.tell = async () => {\n\
    \x20\x20\x20\x20\x20\x20\x20\x20const r = await ask(`wrote ${id} ${x.slot}`, true);\n\
    \x20\x20\x20\x20\x20\x20\x20\x20if (turn === inspecting) x.cell.replaceChildren(r.words[1] === \"place\" ? x.place(+r.words[2]) : el(\"span\", \"dim\", \"older\"));\n\
    \x20\x20\x20\x20\x20\x20};\n\
    \x20\x20\x20\x20\x20\x20S.writers.push(...written);\n\
    \x20\x20\x20\x20\x20\x20return;\n\
    \x20\x20\x20\x20}\n\
    \x20\x20\x20\x20const w = wordOf(id),\n\
    \x20\x20\x20\x20\x20\x20found = new Map();\n\
    \x20\x20\x20\x20let made = null;\n\
    \x20\x20\x20\x20for (const e of S.events) {\n\
    \x20\x20\x20\x20\x20\x20if (e.p > at) break;\n\
    \x20\x20\x20\x20\x20\x20if (e.w !== w) continue;\n\
    \x20\x20\x20\x20\x20\x20if (e.kind === \"new\") {\n\
    \x20\x20\x20\x20\x20\x20\x20\x20found.clear();\n\
    \x20\x20\x20\x20\x20\x20\x20\x20made = e.p;\n\
    \x20\x20\x20\x20\x20\x20} else found.set(+wordsOf(e)[2], e.p);\n\
    \x20\x20\x20\x20}\n\
    \x20\x20\x20\x20for (const x of written) {\n\
    \x20\x20\x20\x20\x20\x20const p = found.get(x.slot) ?? made;\n\
    \x20\x20\x20\x20\x20\x20x.cell.replaceChildren(p === null ? el(\"span\", \"dim\", unknown()) : x.place(p));\n\
    \x20\x20\x20\x20}\n\
    \x20\x20}\n\
    \n\
    \x20\x20// Asks which step wrote each slot that can be seen, if that wasn't asked yet.\n\
    \x20\x20function loadWriters() {\n\
    \x20\x20\x20\x20const box = $(\"insp\").getBoundingClientRect(),\n\
    \x20\x20\x20\x20\x20\x20top = Math.max(0, box.top),\n\
    \x20\x20\x20\x20\x20\x20bottom = Math.min(innerHeight, box.bottom),\n\
    \x20\x20\x20\x20\x20\x20seen = ({ cell }) => {\n\
    \x20\x20\x20\x20\x20\x20\x20\x20const r = cell.getBoundingClientRect();\n\
    \x20\x20\x20\x20\x20\x20\x20\x20return r.bottom > top && r.top < bottom;\n\
    \x20\x20\x20\x20\x20\x20},\n\
    \x20\x20\x20\x20\x20\x20wanted = S.writers.filter(seen);\n\
    \x20\x20\x20\x20S.writers = S.writers.filter((x) => !wanted.includes(x));\n\
    \x20\x20\x20\x20for (const x of wanted) x.tell().catch(() => {});\n\
    \x20\x20}\n\
    \n\
    \x20\x20// ---- writes of a field\n\
    \x20\x20const isWatched = (slot) => isAbout(S.watch) && S.watch.slot === slot;\n\
    \n\
    \x20\x20// Tells whether the shown object is the one whose field was picked, and not another one with its id, or is one of its class if the\n\
    \x20\x20// writes of all these are shown.\n\
    \x20\x20function isAbout(it) {\n\
    \x20\x20\x20\x20const o = it && it.id === S.sel && objectAt(S.sel);\n\
    \x20\x20\x20\x20if (!o || o.name !== it.of) return false;\n\
    \x20\x20\x20\x20const [from, to] = [Math.min(it.at, S.shown), Math.max(it.at, S.shown)];\n\
    \x20\x20\x20\x20return it.all || !(S.born.get(o.w) || []).some((p) => p > from && p <= to);\n\
    \x20\x20}\n\
    \n\
    \x20\x20// How often the writes of a field were read.\n\
    \x20\x20let watches = 0;\n\
    \n\
    \x20\x20// Picks a field of the shown object, to show all its writes; or picks none, if it was picked.\n\
    \x20\x20function watchField(name, x) {\n\
    \x20\x20\x20\x20if (isWatched(x.slot)) return unwatch();\n\
    \x20\x20\x20\x20const field = isArray(name) ? `[${x.name}]` : x.name,\n\
    \x20\x20\x20\x20\x20\x20dotted = isArray(name) ? field : \".\" + field;\n\
    \x20\x20\x20\x20S.watch = { id: S.sel, at: S.shown, of: name, slot: x.slot, field, dotted, all: false, rows: [], why: \"\", asked: \"\", done: false, turn: ++watches };\n\
    \x20\x20\x20\x20showWrites();\n\
    \x20\x20\x20\x20loadWrites().catch(() => {});\n\
    \x20\x20}\n\
    \n\
    \x20\x20function goWatching(p, name, x) {\n\
    \x20\x20\x20\x20if (!isWatched(x.slot)) watchField(name, x);\n\
    \x20\x20\x20\x20go(p);\n\
    \x20\x20}\n\
    \n\
    \x20\x20function unwatch() {\n\
    \x20\x20\x20\x20if (!S.watch) return;\n\
    \x20\x20\x20\x20const had = $(\"writes\")?.contains(document.activeElement),\n\
    \x20\x20\x20\x20\x20\x20row = rowNamed($(\"insp\"), \"slot \" + S.watch.slot);\n\
    \x20\x20\x20\x20S.watch = null;\n\
    \x20\x20\x20\x20showWrites();\n\
    \x20\x20\x20\x20if (had) row?.focus();\n\
    \x20\x20}\n\
    \n\
    \x20\x20// If another object is picked, its field stays picked only if the writes of all objects of its class are shown.\n\
    \x20\x20function keepWatch(id) {\n\
    \x20\x20\x20\x20const it = S.watch;\n\
    \x20\x20\x20\x20if (it && it.id !== id) S.watch = it.all && id && objectAt(id)?.name === it.of ? { ...it, id } : null;\n\
    \x20\x20}\n\
    \n\
    \x20\x20// From where and until where an id stands for the object that it stands for at a place.\n\
    \x20\x20function lifeOf(id, at) {\n\
    \x20\x20\x20\x20const w = wordOf(id);\n\
    \x20\x20\x20\x20return [bornIn(w, at) ?? -1, (S.born.get(w) || []).find((p) => p > at) ?? Infinity];\n\
    \x20\x20}\n\
    \n\
    \x20\x20// Reads the writes of the picked field, if the heap has gone on since they were read.\n\
    \x20\x20async function loadWrites() {\n\
    \x20\x20\x20\x20const it = S.watch,\n\
    \x20\x20\x20\x20\x20\x20life = lifeOf(it.id, it.at),\n\
    \x20\x20\x20\x20\x20\x20now = [S.place, S.status.acts, it.all, ...(it.all ? [] : life)].join();\n\
    \x20\x20\x20\x20if (it.asked === now) return;\n\
    \x20\x20\x20\x20it.asked = now;\n\
    \x20\x20\x20\x20const found = await writesIn(it, life);\n\
    \x20\x20\x20\x20if (it !== S.watch || it.asked !== now) return;\n\
    \x20\x20\x20\x20Object.assign(it, found, { done: true, turn: ++watches });\n\
    \x20\x20\x20\x20showWrites();\n\
    \x20\x20}\n\
    \n\
    \x20\x20// Asks for the writes of a field: of one object, if the heap still has it; else they are among those of all objects of its class.\n\
    \x20\x20async function writesIn({ id, of, slot, all }, [from, to]) {\n\
    \x20\x20\x20\x20const one = all || to < Infinity ? null : await ask(`watch ${id} ${slot}`, true),\n\
    \x20\x20\x20\x20\x20\x20number = numberOf(of);\n\
    \x20\x20\x20\x20if (one && (one.ok || number === null)) return { why: one.ok ? \"\" : one.last, rows: one.rows.map(([p, old, now]) => ({ p: +p, id, old, now })) };\n\
    \x20\x20\x20\x20if (number === null) return { why: \"the object is gone\", rows: [] };\n\
    \x20\x20\x20\x20const r = await ask(`writes ${number} ${slot}`, true),\n\
    \x20\x20\x20\x20\x20\x20rows = r.rows.map(([p, other, old, now]) => ({ p: +p, id: other, old, now }));\n\
    \x20\x20\x20\x20return { why: r.ok ? \"\" : r.last, rows: all ? rows : rows.filter((x) => x.id === id && x.p >= from && x.p < to) };\n\
    \x20\x20}\n\
    \n\
    \x20\x20// Returns the number of a class, or null if no class has this name.\n\
    \x20\x20const numberOf = (name) => [...S.classes].find(([, c]) => c.name === name)?.[0] ?? null;\n\
    \n\
    \x20\x20// Draws the writes of the picked field: on the time line, and as a list.\n\
    \x20\x20function showWrites() {\n\
    \x20\x20\x20\x20const box = $(\"writes\");\n\
    \x20\x20\x20\x20if (box) keepFocus(box, () => box.replaceChildren(...writesOf().children));\n\
    \x20\x20\x20\x20for (const row of $(\"insp\").querySelectorAll(\"[data-row^='slot ']\")) {\n\
    \x20\x20\x20\x20\x20\x20const on = isWatched(+row.dataset.row.slice(5));\n\
    \x20\x20\x20\x20\x20\x20row.classList.toggle(\"on\", on);\n\
    \x20\x20\x20\x20\x20\x20row.ariaSelected = on;\n\
    \x20\x20\x20\x20}\n\
    \x20\x20\x20\x20drawLine();\n\
    \x20\x20}\n\
    \n\
    \x20\x20// The list of the writes of the picked field, if there is one, the newest first.\n\
    \x20\x20function writesOf() {\n\
    \x20\x20\x20\x20const box = el(\"div\"),\n\
    \x20\x20\x20\x20\x20\x20it = S.watch;\n\
    \x20\x20\x20\x20box.id = \"writes\";\n\
    \x20\x20\x20\x20if (!isAbout(it)) return box;\n\
    \x20\x20\x20\x20const shown = it.rows.slice(-LISTED).reverse(),\n\
    \x20\x20\x20\x20\x20\x20table = el(\"table\"),\n\
    \x20\x20\x20\x20\x20\x20head = el(\"tr\");\n\
    \x20\x20\x20\x20for (const x of [\"Place\", ...(it.all ? [\"Object\"] : []), \"Old\", \"New\"]) head.append(el(\"th\", \"\", x));\n\
    \x20\x20\x20\x20table.createTHead().append(head);\n\
    \x20\x20\x20\x20table.createTBody().append(...shown.map(writeRow));\n\
    \x20\x20\x20\x20table.ariaLabel = `Writes of ${it.field}`;\n\
    \x20\x20\x20\x20box.append(writesHead(it));\n\
    \x20\x20\x20\x20if (shown.length) box.append(table);\n\
    \x20\x20\x20\x20if (it.rows.length > shown.length) box.append(el(\"div\", \"empty\", `and ${num(it.rows.length - shown.length)} older`));\n\
    \x20\x20\x20\x20return box;\n\
    \x20\x20}\n\
    \n\
    \x20\x20// What is above the list: how many writes there are, of which objects, and what takes them away.\n\
    \x20\x20function writesHead(it) {\n\
    \x20\x20\x20\x20const sub = el(\"div\", \"sub\", `Writes of ${it.field}`),\n\
    \x20\x20\x20\x20\x20\x20seg = el(\"span\", \"seg\"),\n\
    \x20\x20\x20\x20\x20\x20close = el(\"button\", \"btn small\", \"\xe2\x9c\x95\");\n\
    \x20\x20\x20\x20seg.role = \"group\";\n\
    \x20\x20\x20\x20seg.ariaLabel = \"Whose writes\";\n\
    \x20\x20\x20\x20for (const [all, text, title] of [[false, \"this object\", \"Only those of the object that is shown\"], [true, \"all objects of the class\", `Those of all objects of ${it.of}`]]) {\n\
    \x20\x20\x20\x20\x20\x20const b = el(\"button\", \"\", text);\n\
    \x20\x20\x20\x20\x20\x20b.ariaPressed = it.all === all;\n\
    \x20\x20\x20\x20\x20\x20b.title = title;\n\
    \x20\x20\x20\x20\x20\x20b.dataset.row = text;\n\
    \x20\x20\x20\x20\x20\x20b.disabled = all && numberOf(it.of) === null;\n\
    \x20\x20\x20\x20\x20\x20b.onclick = () => {\n\
    \x20\x20\x20\x20\x20\x20\x20\x20Object.assign(it, { all, at: S.shown });\n\
    \x20\x20\x20\x20\x20\x20\x20\x20loadWrites().catch(() => {});\n\
    \x20\x20\x20\x20\x20\x20};\n\
    \x20\x20\x20\x20\x20\x20seg.append(b);\n\
    \x20\x20\x20\x20}\n\
    \x20\x20\x20\x20close.title = \"Show them no longer (Esc)\";\n\
    \x20\x20\x20\x20close.ariaLabel = \"Close\";\n\
    \x20\x20\x20\x20close.dataset.row = \"close\";\n\
    \x20\x20\x20\x20close.onclick = unwatch;\n\
    \x20\x20\x20\x20sub.append(el(\"small\", \"\", it.why || (it.done ? num(it.rows.length) + (it.rows.length > 1 ? \", newest first\" : \"\") : \"\xe2\x80\xa6\")), el(\"span\", \"grow\"), seg, close);\n\
    \x20\x20\x20\x20return sub;\n\
    \x20\x20}\n\
    \n\
    \x20\x20function writeRow({ p, id, old, now }) {\n\
    \x20\x20\x20\x20const tr = rowOf(`write ${p}`, \"pick\" + (p === S.shown ? \" on\" : \"\"), () => go(p)),\n\
    \x20\x20\x20\x20\x20\x20place = el(\"td\", \"\", \"@\" + num(p));\n\
    \x20\x20\x20\x20tr.title = \"Show the heap just after this write\";\n\
    \x20\x20\x20\x20tr.append(place, ...(S.watch.all ? [valueCell(id)] : []), valueCell(old), valueCell(now));\n\
    \x20\x20\x20\x20return tr;\n\
    \x20\x20}\n\
    \n\
    \x20\x20function valueCell(v) {\n\
    \x20\x20\x20\x20const td = el(\"td\", v === \"null\" || v === \"0\" ? \"dim\" : \"\");\n\
    \x20\x20\x20\x20td.append(v.startsWith(\"0x\") ? idLink(v) : v);\n\
    \x20\x20\x20\x20td.title = v;\n\
    \x20\x20\x20\x20return td;\n\
    \x20\x20}\n\
    \n\
    \x20\x20// Shows the next write of the picked field before the shown place, or after it.\n\
    \x20\x20function toWrite(forth) {\n\
    \x20\x20\x20\x20const at = atPlace(),\n\
    \x20\x20\x20\x20\x20\x20rows = S.watch ? S.watch.rows : [],\n\
    \x20\x20\x20\x20\x20\x20to = forth ? rows.find(({ p }) => p > at) : rows.findLast(({ p }) => p < at);\n\
    \x20\x20\x20\x20if (to) go(to.p);\n\
    \x20\x20}\n\
    \n\
    \x20\x20// The rows of a path, or the first and the last of a long one.\n\
    \x20\x20function endsOf(path) {\n\
    \x20\x20\x20\x20const count = +path.words[1] + 1;\n\
    \x20\x20\x20\x20if (count <= 400) return { rows: path.rows, cut: null };\n\
    \x20\x20\x20\x20const cells = (text) => text.split(\"\\n\").map((l) => l.split(\" \").slice(1));\n\
    \x20\x20\x20\x20let from = 0,\n\
    \x20\x20\x20\x20\x20\x20to = path.text.lastIndexOf(\"\\nok \");\n\
    \x20\x20\x20\x20const end = to;\n\
    \x20\x20\x20\x20for (let k = 0; k < 200; k++) from = path.text.indexOf(\"\\n\", from) + 1;\n\
    \x20\x20\x20\x20for (let k = 0; k < 200; k++) to = path.text.lastIndexOf(\"\\n\", to - 1);\n\
    \x20\x20\x20\x20return { rows: [...cells(path.text.slice(0, from - 1)), ...cells(path.text.slice(to + 1, end))], cut: num(count - 400) };\n\
    \x20\x20}\n\
    \n\
    \x20\x20function pathOf(id, path) {\n\
    \x20\x20\x20\x20const why = el(\"div\", \"sub\", \"Why it is alive\");\n\
    \x20\x20\x20\x20if (!path.ok) {\n\
    \x20\x20\x20\x20\x20\x20S.path = new Set();\n\
    \x20\x20\x20\x20\x20\x20return [why, el(\"div\", \"empty\", path.last.includes(\"Unreachable\") ? \"No register reaches it: a cycle that begins now finds it.\" : path.last)];\n\
    \x20\x20\x20\x20}\n\
    \x20\x20\x20\x20why.append(el(\"small\", \"\", \"a shortest path from a register\"));\n\
    \x20\x20\x20\x20const list = el(\"div\", \"path\"),\n\
    \x20\x20\x20\x20\x20\x20{ rows, cut } = endsOf(path);\n\
    \x20\x20\x20\x20S.path = new Set(rows.map((r) => r[2]).filter((x) => x !== id));\n\
    \x20\x20\x20\x20node(list, \"reg\").append(`register ${rows[0][1]} of mutator ${rows[0][0]}`);\n\
    \x20\x20\x20\x20rows.forEach((row, i) => {\n\
    \x20\x20\x20\x20\x20\x20if (cut && i === 200) node(list, \"reg\").append(el(\"span\", \"dim\", `\xe2\x80\xa6 ${cut} more objects`));\n\
    \x20\x20\x20\x20\x20\x20const x = row[2],\n\
    \x20\x20\x20\x20\x20\x20\x20\x20o = objectAt(x),\n\
    \x20\x20\x20\x20\x20\x20\x20\x20next = rows[i + 1],\n\
    \x20\x20\x20\x20\x20\x20\x20\x20d = node(list, \"\", o ? colorOf(o.name) : \"\");\n\
    \x20\x20\x20\x20\x20\x20d.append(o ? el(\"span\", x === id ? \"\" : \"mid\", o.name + \" \") : \"\", idLink(x, true));\n\
    \x20\x20\x20\x20\x20\x20if (next) d.append(el(\"span\", \"e\", \" \" + nameOfSlot(x, next[1])));\n\
    \x20\x20\x20\x20});\n\
    \x20\x20\x20\x20return [why, list];\n\
    \x20\x20}\n\
    \n\
    \x20\x20function node(list, cls, color) {\n\
    \x20\x20\x20\x20const n = el(\"div\", \"n \" + cls),\n\
    \x20\x20\x20\x20\x20\x20d = el(\"div\");\n\
    \x20\x20\x20\x20if (color) n.style.setProperty(\"--c\", color);\n\
    \x20\x20\x20\x20n.append(el(\"i\"), d);\n\
    \x20\x20\x20\x20list.append(n);\n\
    \x20\x20\x20\x20return d;\n\
    \x20\x20}\n\
    \n\
    \x20\x20function referrersOf(refs) {\n\
    \x20\x20\x20\x20const rows = refs.rows,\n\
    \x20\x20\x20\x20\x20\x20objs = rows.filter((r) => r[0].startsWith(\"0x\")),\n\
    \x20\x20\x20\x20\x20\x20sub = el(\"div\", \"sub\", \"Who names it\"),\n\
    \x20\x20\x20\x20\x20\x20list = el(\"div\", \"path flat\");\n\
    \x20\x20\x20\x20S.refs = new Set(objs.map((r) => r[0]).filter((x) => !S.path.has(x)));\n\
    \x20\x20\x20\x20sub.append(el(\"small\", \"\", rows.length ? num(rows.length) + (rows.length > 60 ? \", 60 of them shown\" : \"\") : \"nobody\"));\n\
    \x20\x20\x20\x20for (const r of rows.slice(0, 60)) {\n\
    \x20\x20\x20\x20\x20\x20const o = r[0].startsWith(\"0x\") && objectAt(r[0]);\n\
    \x20\x20\x20\x20\x20\x20if (!r[0].startsWith(\"0x\")) node(list, \"reg\").append(`register ${r[1]} of mutator ${r[0]}`);\n\
    \x20\x20\x20\x20\x20\x20else node(list, \"\", o ? colorOf(o.name) : \"\").append(el(\"span\", \"mid\", o ? o.name + \" \" : \"\"), idLink(r[0], true), el(\"span\", \"e\", \" \" + nameOfSlot(r[0], r[1])));\n\
    \x20\x20\x20\x20}\n\
    \x20\x20\x20\x20return [sub, list];\n\
    \x20\x20}\n\
    \n\
    \x20\x20// ---- all\n\
    \x20\x20// Draws all. The canvases come first: to set their font, a browser works out the style of all elements that are new.\n\
    \x20\x20function draw() {\n\
    \x20\x20\x20\x20drawLine();\n\
    \x20\x20\x20\x20drawMap();\n\
    \x20\x20\x20\x20drawHead();\n\
    \x20\x20\x20\x20drawClasses();\n\
    \x20\x20\x20\x20drawInstances();\n\
    \x20\x20\x20\x20drawSteps();\n\
    \x20\x20}\n\
    \x20\x20$(\"line\").onpointerdown = (e) => {\n\
    \x20\x20\x20\x20if (S.place < 0) return;\n\
    \x20\x20\x20\x20$(\"line\").setPointerCapture(e.pointerId);\n\
    \x20\x20\x20\x20if (e.shiftKey) compare(placeAt(e));\n\
    \x20\x20\x20\x20else {\n\
    \x20\x20\x20\x20\x20\x20S.drag = true;\n\
    \x20\x20\x20\x20\x20\x20go(placeAt(e));\n\
    \x20\x20\x20\x20}\n\
    \x20\x20};\n\
    \x20\x20$(\"line\").onpointermove = (e) => {\n\
    \x20\x20\x20\x20if (S.place < 0) return;\n\
    \x20\x20\x20\x20const { place: p, write } = spotAt(e),\n\
    \x20\x20\x20\x20\x20\x20ev = eventAt(p),\n\
    \x20\x20\x20\x20\x20\x20cycle = ends().includes(p) ? \"\\nthe end of a cycle\" : \"\",\n\
    \x20\x20\x20\x20\x20\x20head = write ? writeText(write) : `@${num(p)}` + (ev ? `  ${ev.line}` : \"\");\n\
    \x20\x20\x20\x20showTip($(\"tip\"), head + (S.samples.has(p) ? `\\n${num(S.samples.get(p).bytes)} bytes` : \"\") + cycle, e.clientX, e.clientY);\n\
    \x20\x20\x20\x20if (S.drag) go(p);\n\
    \x20\x20};\n\
    \x20\x20$(\"line\").onpointerup = () => {\n\
    \x20\x20\x20\x20S.drag = false;\n\
    \x20\x20};\n\
    \x20\x20$(\"line\").onpointerleave = () => {\n\
    \x20\x20\x20\x20$(\"tip\").hidden = true;\n\
    \x20\x20};\n\
    \x20\x20$(\"map\").onpointerdown = (e) => {\n\
    \x20\x20\x20\x20M.drag = { x: e.clientX, y: e.clientY, left: M.x, top: M.y, far: false };\n\
    \x20\x20\x20\x20$(\"map\").setPointerCapture(e.pointerId);\n\
    \x20\x20};\n\
    \x20\x20$(\"map\").onpointermove = (e) => {\n\
    \x20\x20\x20\x20const d = M.drag;\n\
    \x20\x20\x20\x20if (d && (d.far || Math.hypot(e.clientX - d.x, e.clientY - d.y) > 4)) {\n\
    \x20\x20\x20\x20\x20\x20d.far = true;\n\
    \x20\x20\x20\x20\x20\x20$(\"map\").classList.add(\"drag\");\n\
    \x20\x20\x20\x20\x20\x20M.x = d.left - (e.clientX - d.x) / M.zoom;\n\
    \x20\x20\x20\x20\x20\x20M.y = d.top - (e.clientY - d.y) / M.zoom;\n\
    \x20\x20\x20\x20\x20\x20$(\"maptip\").hidden = true;\n\
    \x20\x20\x20\x20\x20\x20return drawMap();\n\
    \x20\x20\x20\x20}\n\
    \x20\x20\x20\x20const hit = cellAt(...pointOf(e));\n\
    \x20\x20\x20\x20if (hit) showTip($(\"maptip\"), cellText(hit), e.clientX, e.clientY);\n\
    \x20\x20\x20\x20else $(\"maptip\").hidden = true;\n\
    \x20\x20};\n\
    \x20\x20$(\"map\").onpointerup = (e) => {\n\
    \x20\x20\x20\x20const d = M.drag,\n\
    \x20\x20\x20\x20\x20\x20hit = cellAt(...pointOf(e));\n\
    \x20\x20\x20\x20M.drag = null;\n\
    \x20\x20\x20\x20$(\"map\").classList.remove(\"drag\");\n\
    \x20\x20\x20\x20if (!d || d.far || !hit) return;\n\
    \x20\x20\x20\x20M.cursor = { number: hit.g.number, cell: hit.cell };\n\
    \x20\x20\x20\x20if (hit.g.cells[hit.cell]) pick(idOf(objectIn(hit.g, hit.cell).w));\n\
    \x20\x20};\n\
    \x20\x20$(\"map\").onpointercancel = () => {\n\
    \x20\x20\x20\x20M.drag = null;\n\
    \x20\x20};\n\
    \x20\x20$(\"map\").onpointerleave = () => {\n\
    \x20\x20\x20\x20$(\"maptip\").hidden = true;\n\
    \x20\x20};\n\
    \x20\x20$(\"map\").ondblclick = (e) => {\n\
    \x20\x20\x20\x20const hit = cellAt(...pointOf(e));\n\
    \x20\x20\x20\x20if (hit) zoomTo(hit.g.number, hit.cell);\n\
    \x20\x20};\n\
    \x20\x20$(\"map\").addEventListener(\"wheel\", (e) => {\n\
    \x20\x20\x20\x20e.preventDefault();\n\
    \x20\x20\x20\x20if (e.shiftKey) {\n\
    \x20\x20\x20\x20\x20\x20M.x += (e.deltaX || e.deltaY) / M.zoom;\n\
    \x20\x20\x20\x20\x20\x20drawMap();\n\
    \x20\x20\x20\x20} else zoomBy(Math.exp(-Math.max(-120, Math.min(120, e.deltaY * (e.deltaMode ? 20 : 1))) * .004), ...pointOf(e));\n\
    \x20\x20\x20\x20$(\"maptip\").hidden = true;\n\
    \x20\x20}, { passive: false });\n\
    \x20\x20$(\"map\").onfocus = $(\"map\").onblur = () => {\n\
    \x20\x20\x20\x20$(\"maptip\").hidden = true;\n\
    \x20\x20\x20\x20if (S.place >= 0) drawMap();\n\
    \x20\x20};\n\
    \x20\x20$(\"zoomin\").onclick = () => zoomBy(2);\n\
    \x20\x20$(\"zoomout\").onclick = () => zoomBy(.5);\n\
    \x20\x20$(\"zoomall\").onclick = () => zoomBy(0);\n\
    \x20\x20$(\"zoomcell\").onclick = () => {\n\
    \x20\x20\x20\x20const o = S.sel && objectAt(S.sel),\n\
    \x20\x20\x20\x20\x20\x20number = o && Math.floor(o.w / WORDS);\n\
    \x20\x20\x20\x20if (o) zoomTo(number, (o.w % WORDS) / S.regions.get(number).size);\n\
    \x20\x20};\n\
    \x20\x20for (const by of [\"class\", \"age\"]) $(\"by\" + by).onclick = () => {\n\
    \x20\x20\x20\x20S.by = by;\n\
    \x20\x20\x20\x20$(\"byclass\").setAttribute(\"aria-pressed\", by === \"class\");\n\
    \x20\x20\x20\x20$(\"byage\").setAttribute(\"aria-pressed\", by === \"age\");\n\
    \x20\x20\x20\x20M.fresh = true;\n\
    \x20\x20\x20\x20drawMap();\n\
    \x20\x20};\n\
    \x20\x20$(\"insp\").onscroll = onscroll = loadWriters;\n\
    \x20\x20for (const box of [$(\"steps\"), $(\"inst\").parentElement]) box.onscroll = () => {\n\
    \x20\x20\x20\x20box.toggleAttribute(\"data-far\", box.scrollTop > 0);\n\
    \x20\x20\x20\x20if (box !== $(\"steps\")) loadSizesLater();\n\
    \x20\x20};\n\
    \x20\x20$(\"golive\").onclick = follow;\n\
    \x20\x20$(\"cycles\").onclick = betweenCycles;\n\
    \x20\x20$(\"setbase\").onclick = () => compare(atPlace());\n\
    \x20\x20$(\"back\").onclick = goBack;\n\
    \x20\x20$(\"how\").onclick = () => $(\"help\").showModal();\n\
    \x20\x20$(\"save\").onclick = async () => {\n\
    \x20\x20\x20\x20const name = S.fast && S.at === null ? \"heap.hprof\" : `heap-${atPlace()}.hprof`,\n\
    \x20\x20\x20\x20\x20\x20{ reply, data } = await post(\"/dump\", atWord(), \"blob\").catch(() => ({ reply: null }));\n\
    \x20\x20\x20\x20if (!reply || !reply.ok) {\n\
    \x20\x20\x20\x20\x20\x20$(\"last\").textContent = \"no dump: \" + (reply ? await data.text() : \"no connection\");\n\
    \x20\x20\x20\x20\x20\x20return;\n\
    \x20\x20\x20\x20}\n\
    \x20\x20\x20\x20const url = URL.createObjectURL(data),\n\
    \x20\x20\x20\x20\x20\x20a = el(\"a\");\n\
    \x20\x20\x20\x20a.href = url;\n\
    \x20\x20\x20\x20a.download = name;\n\
    \x20\x20\x20\x20a.click();\n\
    \x20\x20\x20\x20$(\"last\").textContent = `saved ${a.download}, ${num(data.size)} bytes`;\n\
    \x20\x20\x20\x20setTimeout(() => URL.revokeObjectURL(url), 10000);\n\
    \x20\x20};\n\
    \n\
    \x20\x20// ---- questions\n\
    \x20\x20const typed = [];\n\
    \x20\x20let recalled = 0;\n\
    \x20\x20// Makes the ids in a text links.\n\
    \x20\x20function linked(text) {\n\
    \x20\x20\x20\x20const box = el(\"div\", \"r\");\n\
    \x20\x20\x20\x20for (const part of text.split(/(0x[0-9a-f]{8})/)) box.append(/^0x[0-9a-f]{8}$/.test(part) ? idLink(part, true) : part);\n\
    \x20\x20\x20\x20return box;\n\
    \x20\x20}\n\
    \x20\x20$(\"ask\").onsubmit = async (e) => {\n\
    \x20\x20\x20\x20e.preventDefault();\n\
    \x20\x20\x20\x20const line = $(\"q\").value.trim(),\n\
    \x20\x20\x20\x20\x20\x20log = $(\"log\");\n\
    \x20\x20\x20\x20if (!line) {\n\
    \x20\x20\x20\x20\x20\x20log.hidden = true;\n\
    \x20\x20\x20\x20\x20\x20return;\n\
    \x20\x20\x20\x20}\n\
    \x20\x20\x20\x20$(\"q\").value = \"\";\n\
    \x20\x20\x20\x20typed.push(line);\n\
    \x20\x20\x20\x20recalled = typed.length;\n\
    \x20\x20\x20\x20log.hidden = false;\n\
    \x20\x20\x20\x20const r = await ask(line).catch(() => null),\n\
    \x20\x20\x20\x20\x20\x20lines = r ? r.text.trimEnd().split(\"\\n\") : [\"no connection\"],\n\
    \x20\x20\x20\x20\x20\x20more = lines.length - 400,\n\
    \x20\x20\x20\x20\x20\x20text = (more > 0 ? lines.slice(0, 400) : lines).join(\"\\n\") + (more > 0 ? `\\n.. ${num(more)} more` : \"\");\n\
    \x20\x20\x20\x20log.append(el(\"div\", \"q\", \"> \" + line), r && r.ok ? linked(text) : el(\"div\", \"no\", text));\n\
    \x20\x20\x20\x20while (log.childElementCount > 80) log.firstChild.remove();\n\
    \x20\x20\x20\x20log.scrollTop = log.scrollHeight;\n\
    \x20\x20};\n\
    \x20\x20$(\"q\").onkeydown = (e) => {\n\
    \x20\x20\x20\x20if (e.key === \"Escape\") {\n\
    \x20\x20\x20\x20\x20\x20$(\"log\").hidden = true;\n\
    \x20\x20\x20\x20\x20\x20$(\"q\").blur();\n\
    \x20\x20\x20\x20} else if (e.key === \"ArrowUp\" && recalled > 0) $(\"q\").value = typed[--recalled];\n\
    \x20\x20\x20\x20else if (e.key === \"ArrowDown\" && recalled < typed.length) $(\"q\").value = typed[++recalled] || \"\";\n\
    \x20\x20\x20\x20else return;\n\
    \x20\x20\x20\x20e.preventDefault();\n\
    \x20\x20};\n\
    \n\
    \x20\x20// ---- keys\n\
    \x20\x20const KEYS = {\n\
    \x20\x20\x20\x20ArrowLeft: (e) => go(atPlace() - (e.shiftKey ? 10 : 1)),\n\
    \x20\x20\x20\x20ArrowRight: (e) => go(atPlace() + (e.shiftKey ? 10 : 1)),\n\
    \x20\x20\x20\x20\"[\": () => go(ends().filter((p) => p < atPlace()).pop() ?? S.oldest),\n\
    \x20\x20\x20\x20\"]\": () => go(ends().find((p) => p > atPlace()) ?? S.place),\n\
    \x20\x20\x20\x20Home: () => go(S.oldest),\n\
    \x20\x20\x20\x20End: follow,\n\
    \x20\x20\x20\x20l: follow,\n\
    \x20\x20\x20\x20b: () => compare(S.base === null ? atPlace() : null),\n\
    \x20\x20\x20\x20g: () => S.base === null ? betweenCycles() : compare(null),\n\
    \x20\x20\x20\x20a: () => $(\"byage\").click(),\n\
    \x20\x20\x20\x20c: () => $(\"byclass\").click(),\n\
    \x20\x20\x20\x20s: () => $(\"save\").click(),\n\
    \x20\x20\x20\x20\"+\": () => zoomBy(2),\n\
    \x20\x20\x20\x20\"=\": () => zoomBy(2),\n\
    \x20\x20\x20\x20\"-\": () => zoomBy(.5),\n\
    \x20\x20\x20\x20\"0\": () => zoomBy(0),\n\
    \x20\x20\x20\x20z: () => $(\"zoomcell\").click(),\n\
    \x20\x20\x20\x20\"/\": () => $(\"q\").focus(),\n\
    \x20\x20\x20\x20\"?\": () => $(\"how\").click(),\n\
    \x20\x20\x20\x20Backspace: goBack,\n\
    \x20\x20\x20\x20\",\": () => toWrite(false),\n\
    \x20\x20\x20\x20\".\": () => toWrite(true),\n\
    \x20\x20\x20\x20Escape: () => {\n\
    \x20\x20\x20\x20\x20\x20$(\"log\").hidden = $(\"maptip\").hidden = true;\n\
    \x20\x20\x20\x20\x20\x20unwatch();\n\
    \x20\x20\x20\x20}\n\
    \x20\x20};\n\
    \x20\x20const MAP_KEYS = {\n\
    \x20\x20\x20\x20ArrowLeft: () => moveCursor(-1, 0),\n\
    \x20\x20\x20\x20ArrowRight: () => moveCursor(1, 0),\n\
    \x20\x20\x20\x20ArrowUp: () => moveCursor(0, -1),\n\
    \x20\x20\x20\x20ArrowDown: () => moveCursor(0, 1),\n\
    \x20\x20\x20\x20Enter: () => {\n\
    \x20\x20\x20\x20\x20\x20const g = M.cursor && S.regions.get(M.cursor.number),\n\
    \x20\x20\x20\x20\x20\x20\x20\x20o = g && objectIn(g, M.cursor.cell);\n\
    \x20\x20\x20\x20\x20\x20if (o) pick(idOf(o.w));\n\
    \x20\x20\x20\x20}\n\
    \x20\x20};\n\
    \n\
    \x20\x20// The keys of a row: to the next one, and what a click does.\n\
    \x20\x20function rowKey(e) {\n\
    \x20\x20\x20\x20const row = e.target.closest(\"[data-row]\");\n\
    \x20\x20\x20\x20if (e.key === \"Enter\" || e.key === \" \") {\n\
    \x20\x20\x20\x20\x20\x20if (e.target.tagName === \"BUTTON\" || !(e.target.tabIndex >= 0) || e.target.tagName === \"CANVAS\") return false;\n\
    \x20\x20\x20\x20\x20\x20e.target.click();\n\
    \x20\x20\x20\x20\x20\x20return true;\n\
    \x20\x20\x20\x20}\n\
    \x20\x20\x20\x20if (row && row.ariaLevel && !e.shiftKey && (e.key === \"ArrowLeft\" || e.key === \"ArrowRight\")) {\n\
    \x20\x20\x20\x20\x20\x20treeKey(row, e.key);\n\
    \x20\x20\x20\x20\x20\x20return true;\n\
    \x20\x20\x20\x20}\n\
    \x20\x20\x20\x20if (!row || row.tagName !== \"TR\" || (e.key !== \"ArrowUp\" && e.key !== \"ArrowDown\")) return false;\n\
    \x20\x20\x20\x20const next = e.key === \"ArrowDown\" ? row.nextElementSibling : row.previousElementSibling;\n\
    \x20\x20\x20\x20if (next) next.focus();\n\
    \x20\x20\x20\x20return true;\n\
    \x20\x20}\n\
    \x20\x20addEventListener(\"keydown\", (e) => {\n\
    \x20\x20\x20\x20if (e.target.tagName === \"INPUT\" || e.ctrlKey || e.metaKey || e.altKey || $(\"help\").open || S.place < 0) return;\n\
    \x20\x20\x20\x20const onMap = e.target === $(\"map\") && MAP_KEYS[e.key],\n\
    \x20\x20\x20\x20\x20\x20act = onMap || KEYS[e.key.length === 1 ? e.key.toLowerCase() : e.key];\n\
    \x20\x20\x20\x20if (!onMap && rowKey(e)) e.preventDefault();\n\
    \x20\x20\x20\x20else if (act) {\n\
    \x20\x20\x20\x20\x20\x20e.preventDefault();\n\
    \x20\x20\x20\x20\x20\x20act(e);\n\
    \x20\x20\x20\x20}\n\
    \x20\x20});\n\
    \x20\x20function drawAnew() {\n\
    \x20\x20\x20\x20theme = {};\n\
    \x20\x20\x20\x20hatches.clear();\n\
    \x20\x20\x20\x20if (S.place < 0) return;\n\
    \x20\x20\x20\x20M.fresh = true;\n\
    \x20\x20\x20\x20draw();\n\
    \x20\x20}\n\
    \x20\x20// The sizes of what is drawn, so that drawing needn't ask for them, and drawing anew when they change.\n\
    \x20\x20const seen = new ResizeObserver((found) => {\n\
    \x20\x20\x20\x20for (const { target, contentRect: r } of found)\n\
    \x20\x20\x20\x20\x20\x20if (target === $(\"mapbox\")) Object.assign(M.box, { w: Math.floor(r.width), h: Math.floor(r.height) });\n\
    \x20\x20\x20\x20\x20\x20else if (target === $(\"steps\")) stepsHigh = r.height;\n\
    \x20\x20\x20\x20\x20\x20else LINE.w = Math.floor(r.width);\n\
    \x20\x20\x20\x20if (S.place < 0) return fitAll();\n\
    \x20\x20\x20\x20drawLine();\n\
    \x20\x20\x20\x20drawMap();\n\
    \x20\x20});\n\
    \x20\x20seen.observe($(\"mapbox\"));\n\
    \x20\x20seen.observe($(\"steps\"));\n\
    \x20\x20seen.observe($(\"time\"));\n\
    \x20\x20matchMedia(\"(prefers-color-scheme: dark)\").onchange = drawAnew;\n\
    \x20\x20// Does what takes long the first time while the first answers are on their way: reads the style, and loads the font.\n\
    \x20\x20function prepare() {\n\
    \x20\x20\x20\x20for (const name of [\"line\", \"ink\", \"ink2\", \"ink3\", \"panel\", \"free\", \"red\", \"amber\", \"green\", \"accent\", \"mono\"]) css(\"--\" + name);\n\
    \x20\x20\x20\x20for (const canvas of [$(\"line\"), $(\"map\")]) {\n\
    \x20\x20\x20\x20\x20\x20const c = canvas.getContext(\"2d\");\n\
    \x20\x20\x20\x20\x20\x20c.font = \"11px \" + css(\"--mono\");\n\
    \x20\x20\x20\x20\x20\x20c.measureText(\"0\");\n\
    \x20\x20\x20\x20}\n\
    \x20\x20}\n\
    \x20\x20async function start() {\n\
    \x20\x20\x20\x20if (!key) {\n\
    \x20\x20\x20\x20\x20\x20lock(\"This page needs its key\",\n\
    \x20\x20\x20\x20\x20\x20\x20\x20\"heapdbg prints the address of the page with its key when it starts: a line \xe2\x80\x9cheapdbg: page http://127.0.0.1:\xe2\x80\xa6/#\xe2\x80\xa6\xe2\x80\x9d. Open that address.\");\n\
    \x20\x20\x20\x20\x20\x20return;\n\
    \x20\x20\x20\x20}\n\
    \x20\x20\x20\x20const first = refresh(true);\n\
    \x20\x20\x20\x20keepKey();\n\
    \x20\x20\x20\x20prepare();\n\
    \x20\x20\x20\x20await first;\n\
    \x20\x20\x20\x20await new Promise((go) => requestAnimationFrame(() => setTimeout(go)));\n\
    \x20\x20\x20\x20const help = await ask(\"help\", true).catch(() => null);\n\
    \x20\x20\x20\x20if (help)\n\
    \x20\x20\x20\x20\x20\x20for (const r of help.rows) {\n\
    \x20\x20\x20\x20\x20\x20\x20\x20const o = el(\"option\");\n\
    \x20\x20\x20\x20\x20\x20\x20\x20o.value = r.join(\" \");\n\
    \x20\x20\x20\x20\x20\x20\x20\x20$(\"forms\").append(o);\n\
    \x20\x20\x20\x20\x20\x20}\n\
    \x20\x20\x20\x20document.documentElement.dataset.ready = \"1\";\n\
    \x20\x20\x20\x20sampleMore();\n\
    \x20\x20\x20\x20// What a look costs the heap's lock is kept below about a tenth.\n\
    \x20\x20\x20\x20for (let pause = 600;;) {\n\
    \x20\x20\x20\x20\x20\x20await new Promise((r) => setTimeout(r, document.hidden ? Math.max(4000, pause) : pause));\n\
    \x20\x20\x20\x20\x20\x20const began = performance.now();\n\
    \x20\x20\x20\x20\x20\x20await refresh(false);\n\
    \x20\x20\x20\x20\x20\x20pause = Math.max(600, Math.min(15000, (performance.now() - began + (S.sel ? S.later : 0)) * 8));\n\
    \x20\x20\x20\x20\x20\x20sampleMore();\n\
    \x20\x20\x20\x20}\n\
    \x20\x20}\n\
    \x20\x20window.heapdbg = { S, M, go, pick, ask, refresh, drawMap, regionsOf, cellAt, cellText, zoomTo, originOf };\n\
    \x20\x20start();\n\
    })();\n\
    </script>\n\
    </body>\n\
    </html>\n\
    ";
