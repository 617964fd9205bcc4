//! The files that lie on the desk of each call, and some of what is written of them.

/// One wire from A to B.
const ONE_WIRE: &str =
    "<project xmlns=\"http://www.plcopen.org/xml/tc6_0201\"><types><pous><pou name=\"Main\
    \" pouType=\"program\"><interface><localVars><variable name=\"A\"><type><BOOL/></typ\
    e></variable><variable name=\"B\"><type><BOOL/></type></variable></localVars></inter\
    face><body><FBD><inVariable localId=\"1\"><position x=\"0\" y=\"0\"/><connectionPoin\
    tOut/><expression>A</expression></inVariable><outVariable localId=\"2\"><position x=\
    \"0\" y=\"0\"/><connectionPointIn><connection refLocalId=\"1\"/></connectionPointIn>\
    <expression>B</expression></outVariable></FBD></body></pou></pous></types></project>";

/// Its text.
pub const ONE_WIRE_TEXT: &str =
    "PROGRAM Main\nVAR\n  A : BOOL;\n  B : BOOL;\nEND_VAR\nVAR_TEMP\n  PLCX_W1 : BOOL;\nE\
    ND_VAR\n  PLCX_W1 := A;\n  B := PLCX_W1;\nEND_PROGRAM\n";

/// One wire from A to B, both retained.
const KEPT_WIRE: &str =
    "<project xmlns=\"http://www.plcopen.org/xml/tc6_0201\"><types><pous><pou name=\"Main\
    \" pouType=\"program\"><interface><localVars retain=\"true\"><variable name=\"A\"><t\
    ype><BOOL/></type></variable><variable name=\"B\"><type><BOOL/></type></variable></l\
    ocalVars></interface><body><FBD><inVariable localId=\"1\"><position x=\"0\" y=\"0\"/\
    ><connectionPointOut/><expression>A</expression></inVariable><outVariable localId=\"\
    2\"><position x=\"0\" y=\"0\"/><connectionPointIn><connection refLocalId=\"1\"/></co\
    nnectionPointIn><expression>B</expression></outVariable></FBD></body></pou></pous></\
    types></project>";

/// A motor that holds itself until it is stopped.
const MOTOR: &str =
    "<project xmlns=\"http://www.plcopen.org/xml/tc6_0201\"><types><pous><pou name=\"Ma\
    in\" pouType=\"program\"><interface><localVars><variable name=\"Start\"><type><BOOL\
    /></type></variable><variable name=\"Stop\"><type><BOOL/></type></variable><variabl\
    e name=\"Motor\"><type><BOOL/></type></variable></localVars></interface><body><LD><\
    leftPowerRail localId=\"1\"><position x=\"0\" y=\"0\"/><connectionPointOut formalPa\
    rameter=\"\"/></leftPowerRail><contact localId=\"2\"><position x=\"0\" y=\"0\"/><co\
    nnectionPointIn><connection refLocalId=\"1\"/></connectionPointIn><connectionPointO\
    ut/><variable>Start</variable></contact><contact localId=\"3\"><position x=\"0\" y=\
    \"0\"/><connectionPointIn><connection refLocalId=\"1\"/></connectionPointIn><connec\
    tionPointOut/><variable>Motor</variable></contact><contact localId=\"4\" negated=\"\
    true\"><position x=\"0\" y=\"0\"/><connectionPointIn><connection refLocalId=\"2\"/>\
    <connection refLocalId=\"3\"/></connectionPointIn><connectionPointOut/><variable>St\
    op</variable></contact><coil localId=\"5\"><position x=\"0\" y=\"0\"/><connectionPo\
    intIn><connection refLocalId=\"4\"/></connectionPointIn><connectionPointOut/><varia\
    ble>Motor</variable></coil><rightPowerRail localId=\"6\"><position x=\"0\" y=\"0\"/\
    ><connectionPointIn><connection refLocalId=\"5\"/></connectionPointIn></rightPowerR\
    ail></LD></body></pou></pous></types></project>";

/// A text of it.
const MOTOR_TEXT: &str =
    "PROGRAM Main\nVAR\n  Start : BOOL;\n  Stop : BOOL;\n  Motor : BOOL;\nEND_VAR\n  Motor := (Start OR Mo\
    tor) AND NOT Stop;\nEND_PROGRAM\n";

/// It is started, holds itself, and is stopped.
const MOTOR_EVENTS: &str =
    "event,time,Start,Stop\nscan,0,TRUE,FALSE\nscan,10,FALSE,\nscan,20,,TRUE\n";

/// What the motor does then.
pub const MOTOR_TRACE: &str =
    "event,result,Start,Stop,Motor\n1,ok,TRUE,FALSE,TRUE\n2,ok,FALSE,FALSE,TRUE\n3,ok,FALSE,TRUE,FALSE\n";

/// How often each element of the motor is evaluated then, and is TRUE.
pub const MOTOR_COUNTS: &str =
    "pou,element,pin,evaluated,true\nMain,2,,3,1\nMain,3,,3,2\nMain,4,,3,2\nMain,5,,3,2\ncovered 4 of 4\n";

/// A program that counts its scans, and a resource with two tasks that have an instance of it each.
const TASKS: &str =
    "<project xmlns=\"http://www.plcopen.org/xml/tc6_0201\"><types><pous><pou name=\"\
    Main\" pouType=\"program\"><interface><localVars><variable name=\"C\"><type><INT\
    /></type></variable></localVars></interface><body><FBD><inVariable localId=\"1\"\
    ><position x=\"0\" y=\"0\"/><connectionPointOut/><expression>INT#1</expression><\
    /inVariable><block localId=\"2\" typeName=\"ADD\"><position x=\"0\" y=\"0\"/><in\
    putVariables><variable formalParameter=\"IN1\"><connectionPointIn><connection re\
    fLocalId=\"1\"/></connectionPointIn></variable><variable formalParameter=\"IN2\"\
    ><connectionPointIn><connection refLocalId=\"2\" formalParameter=\"OUT\"/></conn\
    ectionPointIn></variable></inputVariables><inOutVariables></inOutVariables><outp\
    utVariables><variable formalParameter=\"OUT\"><connectionPointOut/></variable></\
    outputVariables></block><outVariable localId=\"3\"><position x=\"0\" y=\"0\"/><c\
    onnectionPointIn><connection refLocalId=\"2\" formalParameter=\"OUT\"/></connect\
    ionPointIn><expression>C</expression></outVariable></FBD></body></pou></pous></t\
    ypes><instances><configurations><configuration name=\"C\"><resource name=\"R\"><\
    task name=\"Fast\" priority=\"0\" interval=\"T#10ms\"><pouInstance name=\"A\" typeName=\"Main\"/></task><task name=\"Slow\" priori\
    ty=\"1\" interval=\"PT0.02S\"><pouInstance name=\"B\" typeName=\"Main\"/></task>\
    </resource></configuration></configurations></instances></project>";

/// What both instances do at the ticks.
pub const TASK_ROWS: &str =
    "event,instance,result\n1,A,ok,C=INT#1\n1,B,ok,C=INT#1\n2,A,ok,C=INT#2\n3,A,ok,C\
    =INT#3\n3,B,ok,C=INT#2\n";

/// The files by their names.
pub const FILES: [(&str, &str); 10] = [
    ("wire.xml", ONE_WIRE),
    ("kept-wire.xml", KEPT_WIRE),
    ("wire.csv", "event,time,A\nscan,0,TRUE\nwarm,,\nscan,10,\n"),
    ("kept.csv", "retain,A,TRUE\n"),
    ("motor.xml", MOTOR),
    ("motor.st", MOTOR_TEXT),
    ("motor.csv", MOTOR_EVENTS),
    ("broken.csv", "event,time,C\n"),
    ("tasks.xml", TASKS),
    (
        "ticks.csv",
        "event,time\ntick,0\ntick,10\ntick,20\ntick,25\n",
    ),
];
