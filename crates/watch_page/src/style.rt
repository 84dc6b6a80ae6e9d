//! How the page looks, and how it refreshes itself.

/// What stands before the body. Meaning never rests on a colour alone: each warning has a sign and a word.
pub(crate) const HEAD: &str = "<!doctype html>
<html lang=\"en\"><head><meta charset=\"utf-8\">
<meta name=\"viewport\" content=\"width=device-width,initial-scale=1\">
<title>The day</title>
<style>
:root{color-scheme:light dark;--line:#8886;--soft:#8882;--warn:#b35900;--bad:#0b3d91}
@media(prefers-color-scheme:dark){:root{--warn:#ffb000;--bad:#9cc2ff}}
body{font:14px/1.4 system-ui,sans-serif;margin:0 auto;padding:.8em;max-width:92em}
h1{font-size:1.25em;margin:.2em 0}h2{font-size:1.05em;margin:1.2em 0 .3em}
table{border-collapse:collapse;width:100%;font-variant-numeric:tabular-nums}
th,td{text-align:right;padding:.25em .6em;border-bottom:1px solid var(--line);white-space:nowrap;vertical-align:top}
th{font-weight:600;border-bottom-width:2px}
th:first-child,td:first-child,.l{text-align:left}
tbody tr:nth-child(even){background:var(--soft)}
.warn{color:var(--warn);font-weight:700}
.bad{color:var(--bad);font-weight:700;text-decoration:underline}
.dim{opacity:.65}
td span{white-space:nowrap}
p{margin:.3em 0}
main{overflow-x:auto}
#lost{display:none}
body.lost #lost{display:block}
body.lost main{opacity:.45}
@media(max-width:46em){
thead{display:none}
table,tbody,tr,td{display:block;width:auto}
tr{border:1px solid var(--line);border-radius:.4em;margin:.5em 0;padding:.2em}
td{display:flex;justify-content:space-between;gap:1em;text-align:right;white-space:normal;border-bottom:1px solid var(--soft)}
td::before{content:attr(data-l);font-weight:600;text-align:left}
td:first-child{font-weight:700}
}
</style>
<noscript><meta http-equiv=\"refresh\" content=\"2\"></noscript>
</head><body>
<p id=\"lost\" class=\"bad\" role=\"alert\">! No answer: what stands here is old.</p>
<main>
";

/// What stands after the body: the page fetches itself every second, and says where it gets no answer.
pub(crate) const FOOT: &str = "</main>
<script>
const again=async()=>{
 try{
  const to=new AbortController();const late=setTimeout(()=>to.abort(),4000);
  const text=await(await fetch('/',{signal:to.signal,cache:'no-store'})).text();
  clearTimeout(late);
  const page=new DOMParser().parseFromString(text,'text/html').querySelector('main');
  document.querySelector('main').replaceWith(page);
  document.body.classList.remove('lost');
 }catch(e){document.body.classList.add('lost')}
 setTimeout(again,1000)};
setTimeout(again,1000);
</script>
</body></html>
";
