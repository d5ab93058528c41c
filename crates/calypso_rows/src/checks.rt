//! Canonical texts.

use crate::refusals::EVERY_FORM;
use row_calls::call;
use std::test::Fail;

/// A text, and its canonical form.
type Row = (&'static [u8], &'static [u8]);

#[test]
fn canonical_texts(rt: HostRuntime) -> Result<(), Fail> {
    let rows: &[Row] = &[
        (b"shared { } main { }", b"shared {\n}\nmain {\n}\n"),
        (
            b"shared{int x;}main{x=1;print(x);}",
            b"shared {\n  int x ;\n}\nmain {\n  x = 1 ;\n  print ( x ) ;\n}\n",
        ),
        (
            b"shared{}main{if(true){}else if(false){}else{}}",
            b"shared {\n}\nmain {\n  if ( true ) {\n  }\n  else if ( false ) {\n  }\n  else {\n  }\n}\n",
        ),
        (
            b"shared{int a[02]={1,-2};}main{for(int i=0;i<1;i+=1){a[i]=- 3*(i+1);}}",
            b"shared {\n  int a [ 2 ] = {\n    1 , - 2 }\n  ;\n}\nmain {\n  for ( int i = 0 ; i < 1 ; i += 1 ) {\n    a [ i ] = - 3 * ( i + 1 ) ;\n  }\n}\n",
        ),
        (
            b"shared{int s;}main{parbegin routine[1](int w,int id){s=id;}parend;} // done",
            b"shared {\n  int s ;\n}\nmain {\n  parbegin\n    routine [ 1 ] ( int w , int id ) {\n      s = id ;\n    }\n  parend ;\n}\n",
        ),
        (
            b"shared{int a[2]={-7};}main{print(\"sum\",(12));}",
            b"shared {\n  int a [ 2 ] = {\n    - 7 }\n  ;\n}\nmain {\n  print ( \"sum\" , ( 12 ) ) ;\n}\n",
        ),
    ];
    for (text, out) in rows {
        let called = call(
            &rt,
            rt.alloc(),
            &["check", "p.csl"],
            text,
            Vec::new(rt.alloc()),
        )?;
        assert_eq!(rt; called.err.bytes(), b"".as_slice());
        assert_eq!(rt; called.out.bytes(), *out);
        assert_eq!(rt; called.status, 0);
    }
    Ok(())
}

#[test]
fn a_canonical_text_is_its_own(rt: HostRuntime) -> Result<(), Fail> {
    let words: [&str; 2] = ["check", "p.csl"];
    let once = call(&rt, rt.alloc(), &words, EVERY_FORM, Vec::new(rt.alloc()))?;
    assert_eq!(rt; once.status, 0);
    let twice = call(
        &rt,
        rt.alloc(),
        &words,
        once.out.bytes(),
        Vec::new(rt.alloc()),
    )?;
    assert_eq!(rt; twice.status, 0);
    assert_eq!(rt; twice.out.bytes(), once.out.bytes());
    Ok(())
}

#[test]
fn a_canonical_text_stops_where_the_output_fails(rt: HostRuntime) -> Result<(), Fail> {
    let called = call(
        &rt,
        rt.alloc(),
        &["check", "p.csl"],
        b"shared { } main { }",
        vec![in rt.alloc(); 4]?,
    )?;
    assert_eq!(rt; called.status, 7);
    assert_eq!(rt; called.out.bytes(), b"sha".as_slice());
    assert_eq!(rt; called.err.bytes(), b"output failed\n".as_slice());
    Ok(())
}
