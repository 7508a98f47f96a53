//! Every event of some runs by rounds, in order. An event is written as its actor's number and its act, whose kind is followed by its
//! numbers; of a move on a channel inside a node the guard is `-` where no ALT meets. An independent program made these lists, from the
//! same rules.

/// Two nodes on one wire.
pub(crate) const HELLO: &str = "\
    0 fct 0;1 take 0 257813417;0 fct 0;1 take 0 407017181;0 proc offer 0 0;1 fct 0;0 take 0 3837872008;1 fct 0;\
    0 take 0 932996374;1 proc want 0 0;0 put 0;1 take 0 896943092;0 put 0;1 take 0 4175973425;0 put 0;\
    1 take 0 2864827017;0 put 0;1 take 0 1163259907;0 put 0;1 take 0 618144122;0 put 0;1 take 0 1041812380;0 put 0;\
    1 take 0 1400583069;0 put 0;1 take 0 3917562462;1 pass 0;1 pass 0;1 pass 0;1 pass 0;1 pass 0;1 pass 0;1 pass 0;\
    1 pass 0;1 put 0;0 take 0 1548399547;1 put 0;0 take 0 1612522464;1 put 0;0 take 0 473443212;1 fct 0;\
    0 take 0 3522865942;0 pass 0;0 pass 0;0 pass 0;";

/// Three numbers over two switches and a group of links.
pub(crate) const SQUARES: &str = "\
    0 fct 0;1 fct 0;2 take 0 2057372262;3 take 0 2993831351;0 fct 0;1 fct 0;2 take 0 4263128686;3 take 0 2996525331;\
    0 proc quiet 0;1 proc quiet 0;2 fct 0;3 fct 0;0 take 0 3837872008;1 take 0 257813417;2 fct 0;3 fct 0;\
    0 take 0 932996374;1 take 0 407017181;2 fct 4;3 take 4 4239216588;0 proc offer 1 0;1 proc want 1 0;2 fct 4;\
    3 take 4 816352034;0 put 0;2 take 0 2742845196;3 fct 4;0 put 0;2 take 0 530195910;3 fct 4;0 put 0;\
    2 take 0 419286109;3 fct 5;0 put 0;2 take 0 4218628581;3 fct 5;0 put 0;2 take 0 2536476227;3 fct 6;0 put 0;\
    2 take 0 677332599;3 fct 6;0 put 0;2 take 0 2154215921;3 fct 7;0 put 0;2 take 0 4030912769;3 fct 7;0 put 0;\
    2 take 0 3170731012;0 put 0;2 take 0 2500512480;0 put 0;2 take 0 4053342858;0 put 0;2 take 0 2378660698;0 put 0;\
    2 take 0 3359279649;2 take 4 2169726771;2 take 4 2426158987;2 take 5 3493029554;2 take 5 2447445082;\
    2 take 6 110797885;2 take 6 776197293;2 take 7 149572255;2 take 7 484652233;2 pass 0;2 pass 0;2 pass 0;2 pass 0;\
    2 pass 0;2 pass 0;2 pass 0;2 pass 0;2 pass 0;2 pass 0;2 pass 0;2 pass 0;2 pass 0;2 route 0 4;2 put 4;\
    3 take 4 3424162638;2 put 4;3 take 4 3681332733;2 put 4;3 take 4 2020875406;2 put 4;3 take 4 1821424720;2 put 4;\
    3 take 4 1802922080;2 put 4;3 take 4 196201350;2 put 4;3 take 4 170185576;2 put 4;3 take 4 1190554911;2 put 4;\
    3 take 4 600574320;2 put 4;3 take 4 3961272580;2 put 4;3 take 4 2532724646;2 put 4;3 take 4 2749347138;2 put 4;\
    3 take 4 1027360533;2 fct 0;3 pass 4;0 take 0 1548399547;2 fct 5;3 take 5 2916050063;2 fct 5;\
    3 take 5 3062228782;2 fct 6;3 take 6 2215699160;2 fct 6;3 take 6 3642998485;2 fct 7;3 take 7 3821476505;2 fct 7;\
    3 take 7 938763783;3 pass 4;3 pass 4;3 pass 4;3 pass 4;3 pass 4;3 pass 4;3 pass 4;3 pass 4;3 pass 4;3 pass 4;\
    3 pass 4;3 pass 4;3 route 4 0;3 put 0;1 take 0 896943092;3 put 0;1 take 0 4175973425;3 put 0;\
    1 take 0 2864827017;3 put 0;1 take 0 1163259907;3 put 0;1 take 0 618144122;3 put 0;1 take 0 1041812380;3 put 0;\
    1 take 0 1400583069;3 put 0;1 take 0 3917562462;3 put 0;1 take 0 94292388;3 put 0;1 take 0 899542941;3 put 0;\
    1 take 0 3327088607;3 fct 4;1 pass 0;2 take 4 3830698760;1 pass 0;1 pass 0;1 pass 0;1 pass 0;1 pass 0;1 pass 0;\
    1 pass 0;1 pass 0;1 pass 0;1 pass 0;1 put 0;3 take 0 3195372293;1 put 0;3 take 0 3540646536;1 put 0;\
    3 take 0 2997513101;1 put 0;3 take 0 658176720;1 put 0;3 take 0 3357721332;1 fct 0;3 take 0 3484585680;\
    1 proc want 1 0;3 pass 0;3 pass 0;3 pass 0;3 pass 0;3 pass 0;3 route 0 4;3 put 4;2 take 4 2074034284;3 put 4;\
    2 take 4 3821984687;3 put 4;2 take 4 1256519779;3 put 4;2 take 4 2178311238;3 put 4;2 take 4 1228008617;\
    2 pass 4;2 pass 4;2 pass 4;2 pass 4;2 pass 4;2 route 4 0;2 put 0;0 take 0 1612522464;2 put 0;0 take 0 473443212;\
    2 put 0;0 take 0 3522865942;0 pass 0;0 pass 0;0 pass 0;0 proc offer 1 0;0 put 0;2 take 0 505040321;0 put 0;\
    2 take 0 2765313171;0 put 0;2 take 0 2153629979;0 put 0;2 take 0 1909360637;0 put 0;2 take 0 1495571181;0 put 0;\
    2 take 0 3934339629;0 put 0;2 take 0 3262848238;0 put 0;2 take 0 138130104;0 put 0;2 take 0 3383281683;0 put 0;\
    2 take 0 2378026695;0 put 0;2 take 0 1402355273;2 pass 0;2 pass 0;2 pass 0;2 pass 0;2 pass 0;2 pass 0;2 pass 0;\
    2 pass 0;2 pass 0;2 pass 0;2 pass 0;2 route 0 4;2 put 4;3 take 4 2520568904;2 put 4;3 take 4 2508285911;2 put 4;\
    3 take 4 2764872925;2 put 4;3 take 4 2648043472;2 put 4;3 take 4 2552321113;2 put 4;3 take 4 2127864548;2 put 4;\
    3 take 4 1000541670;2 put 4;3 take 4 2282019928;2 put 4;3 take 4 1715888392;2 put 4;3 take 4 3159586056;2 put 4;\
    3 take 4 2856213242;2 fct 0;3 pass 4;0 take 0 1734871597;2 fct 0;3 pass 4;0 take 0 2449558126;3 pass 4;0 put 0;\
    2 take 0 1878991635;3 pass 4;0 put 0;2 take 0 2508683774;3 pass 4;2 pass 0;3 pass 4;2 pass 0;3 pass 4;3 pass 4;\
    3 pass 4;3 pass 4;3 pass 4;3 route 4 0;3 put 0;1 take 0 2877529636;3 put 0;1 take 0 578745658;3 put 0;\
    1 take 0 3477750088;3 put 0;1 take 0 951197285;3 put 0;1 take 0 1320828456;3 put 0;1 take 0 859051013;3 put 0;\
    1 take 0 3423055452;3 put 0;1 take 0 3371129188;3 put 0;1 take 0 4265541319;3 fct 4;1 pass 0;\
    2 take 4 1531878753;3 fct 4;1 pass 0;2 take 4 1804848632;1 pass 0;2 put 4;3 take 4 3568874391;1 pass 0;2 put 4;\
    3 take 4 3009084776;1 pass 0;3 pass 4;1 pass 0;3 pass 4;1 pass 0;3 put 0;1 take 0 2653536858;3 put 0;\
    1 take 0 3639537914;1 pass 0;1 pass 0;1 pass 0;1 pass 0;1 put 0;3 take 0 3739223512;1 put 0;3 take 0 217781644;\
    1 put 0;3 take 0 3653457294;1 put 0;3 take 0 3535740643;1 put 0;3 take 0 2739141838;1 fct 0;3 take 0 2522102243;\
    1 proc want 1 0;3 pass 0;3 pass 0;3 pass 0;3 pass 0;3 pass 0;3 route 0 4;3 put 4;2 take 4 1556874662;3 put 4;\
    2 take 4 3573381770;3 put 4;2 take 4 1731819794;3 put 4;2 take 4 3047672932;3 put 4;2 take 4 3808543319;3 fct 0;\
    1 take 0 798707510;2 pass 4;2 pass 4;2 pass 4;2 pass 4;2 pass 4;2 route 4 0;2 put 0;0 take 0 1653269385;2 put 0;\
    0 take 0 2811495245;2 put 0;0 take 0 1556319449;2 fct 4;3 take 4 1849816189;0 pass 0;0 pass 0;0 pass 0;\
    0 proc offer 1 0;0 put 0;2 take 0 3876150771;0 put 0;2 take 0 825401589;0 put 0;2 take 0 2715466226;0 put 0;\
    2 take 0 75394283;0 put 0;2 take 0 2804670565;0 put 0;2 take 0 2257641321;0 put 0;2 take 0 3867635391;0 put 0;\
    2 take 0 3281703500;0 put 0;2 take 0 1101914091;0 put 0;2 take 0 3560877363;0 put 0;2 take 0 2043273252;0 put 0;\
    2 take 0 2549463704;0 put 0;2 take 0 4081133979;2 pass 0;2 pass 0;2 pass 0;2 pass 0;2 pass 0;2 pass 0;2 pass 0;\
    2 pass 0;2 pass 0;2 pass 0;2 pass 0;2 pass 0;2 pass 0;2 route 0 4;2 put 4;3 take 4 2073596222;2 put 4;\
    3 take 4 3477370160;2 put 4;3 take 4 3366476282;2 put 4;3 take 4 4046075983;2 put 4;3 take 4 1836144505;2 put 4;\
    3 take 4 2357244648;2 put 4;3 take 4 365202642;2 put 4;3 take 4 374649649;2 put 4;3 take 4 1818730738;2 put 4;\
    3 take 4 361851276;2 put 4;3 take 4 3664058017;2 put 4;3 take 4 3569250465;2 put 4;3 take 4 14745662;2 fct 0;\
    3 pass 4;0 take 0 4237376059;3 pass 4;3 pass 4;3 pass 4;3 pass 4;3 pass 4;3 pass 4;3 pass 4;3 pass 4;3 pass 4;\
    3 pass 4;3 pass 4;3 pass 4;3 route 4 0;3 put 0;1 take 0 1150403057;3 put 0;1 take 0 3030036498;3 put 0;\
    1 take 0 201668596;3 put 0;1 take 0 1482090182;3 put 0;1 take 0 3650950275;3 put 0;1 take 0 3572984812;3 put 0;\
    1 take 0 2725301909;3 put 0;1 take 0 499684476;3 put 0;1 take 0 3925198203;3 put 0;1 take 0 2123356206;3 fct 4;\
    1 pass 0;2 take 4 1791252894;1 pass 0;1 pass 0;1 pass 0;1 pass 0;1 pass 0;1 pass 0;1 pass 0;1 pass 0;1 pass 0;\
    1 fct 0;3 take 0 1547172386;1 fct 0;3 take 0 3543363955;3 put 0;1 take 0 1790818399;1 pass 0;1 put 0;\
    3 take 0 152118801;1 put 0;3 take 0 2104202739;1 put 0;3 take 0 355134386;1 put 0;3 take 0 3986815864;1 put 0;\
    3 take 0 2048790014;3 pass 0;3 pass 0;3 pass 0;3 pass 0;3 pass 0;3 route 0 4;3 put 4;2 take 4 2930779508;\
    3 put 4;2 take 4 3477368227;3 put 4;2 take 4 1979533278;3 put 4;2 take 4 1872100967;3 put 4;2 take 4 2221181194;\
    2 pass 4;2 pass 4;2 pass 4;2 pass 4;2 pass 4;2 route 4 0;2 put 0;0 take 0 2177389020;2 put 0;\
    0 take 0 2429034724;2 put 0;0 take 0 1625270019;0 pass 0;0 pass 0;0 pass 0;0 fct 0;2 take 0 114823350;";

/// An ALT with two guards.
pub(crate) const CHOICE: &str = "\
    0 fct 0;1 take 0 257813417;0 fct 0;1 take 0 407017181;0 proc offer 1 0;1 fct 0;0 take 0 3837872008;1 fct 0;\
    0 take 0 932996374;1 proc quiet 0;0 put 0;1 take 0 896943092;0 put 0;1 take 0 4175973425;0 put 0;\
    1 take 0 2864827017;0 put 0;1 take 0 1163259907;0 put 0;1 take 0 618144122;0 put 0;1 take 0 1041812380;0 put 0;\
    1 take 0 1400583069;0 put 0;1 take 0 3917562462;0 put 0;1 take 0 94292388;0 put 0;1 take 0 899542941;0 put 0;\
    1 take 0 3327088607;0 proc offer 2 1;1 pass 0;0 put 0;1 take 0 2877529636;0 put 0;1 take 0 578745658;0 put 0;\
    1 take 0 3477750088;0 put 0;1 take 0 951197285;0 put 0;1 take 0 1320828456;1 pass 0;1 pass 0;1 pass 0;1 pass 0;\
    1 pass 0;1 pass 0;1 pass 0;1 pass 0;1 pass 0;1 pass 0;1 pass 0;1 pass 0;1 pass 0;1 pass 0;1 pass 0;1 fct 0;\
    0 take 0 1548399547;1 fct 0;0 take 0 1612522464;1 proc choose 1 0 0;0 put 0;1 take 0 859051013;0 put 0;\
    1 take 0 3423055452;0 put 0;1 take 0 3371129188;0 put 0;1 take 0 4265541319;0 put 0;1 take 0 2653536858;0 put 0;\
    1 take 0 3639537914;1 pass 0;1 pass 0;1 pass 0;1 pass 0;1 pass 0;1 pass 0;1 put 0;0 take 0 473443212;1 put 0;\
    0 take 0 3522865942;1 put 0;0 take 0 1734871597;1 proc quiet 2;0 pass 0;1 proc choose 1 1 1;0 pass 0;1 put 0;\
    0 take 0 2449558126;1 put 0;0 take 0 1653269385;1 put 0;0 take 0 2811495245;1 proc quiet 3;0 pass 0;0 pass 0;\
    0 pass 0;0 pass 0;";

/// Over a switch that puts a random header, which falls away.
pub(crate) const PORTALS: &str = "\
    0 fct 0;1 fct 0;2 take 0 2057372262;0 fct 0;1 fct 0;2 take 0 4263128686;0 proc offer 0 0;1 proc want 0 0;\
    2 take 1 2742845196;2 take 1 530195910;2 fct 0;0 take 0 3837872008;2 fct 0;0 take 0 932996374;2 fct 1;0 put 0;\
    1 take 0 257813417;2 take 0 419286109;0 put 0;2 take 0 4218628581;0 put 0;2 take 0 2536476227;0 put 0;\
    2 take 0 677332599;0 put 0;2 take 0 2154215921;0 put 0;2 take 0 4030912769;0 put 0;2 take 0 3170731012;0 put 0;\
    2 take 0 2500512480;2 pass 0;2 pass 0;2 pass 0;2 pass 0;2 pass 0;2 pass 0;2 pass 0;2 pass 0;2 route 0 1;2 put 1;\
    1 take 0 407017181;2 put 1;1 take 0 896943092;2 put 1;1 take 0 4175973425;2 put 1;1 take 0 2864827017;2 put 1;\
    1 take 0 1163259907;2 put 1;1 take 0 618144122;2 put 1;1 take 0 1041812380;2 put 1;1 take 0 1400583069;2 fct 0;\
    0 take 0 1548399547;1 pass 0;2 fct 1;1 take 0 3917562462;1 pass 0;1 pass 0;1 pass 0;1 pass 0;1 pass 0;1 pass 0;\
    1 pass 0;1 put 0;2 take 1 4053342858;1 put 0;2 take 1 2378660698;1 put 0;2 take 1 3359279649;1 fct 0;\
    2 take 1 2169726771;2 pass 1;2 pass 1;2 pass 1;2 route 1 0;2 put 0;0 take 0 1612522464;2 put 0;\
    0 take 0 473443212;2 put 0;0 take 0 3522865942;0 pass 0;0 pass 0;0 pass 0;";

/// An output and an input that meet inside their node.
pub(crate) const MEETING: &str = "0 proc inner 1 2 - 0;";

/// Three outputs side by side over two wires, and three inputs.
pub(crate) const THREE_PARTS: &str = "\
    0 fct 0;1 take 2 257813417;0 fct 0;1 take 2 407017181;0 fct 1;1 take 0 896943092;0 fct 1;1 take 0 4175973425;\
    0 proc quiet 2;1 fct 0;0 take 1 3837872008;1 fct 0;0 take 1 932996374;1 fct 2;0 take 0 1548399547;1 fct 2;\
    0 take 0 1612522464;1 proc want 1 1;0 proc offer 3 0;1 proc quiet 3;0 put 0;1 take 2 2864827017;0 put 0;\
    1 take 2 1163259907;0 put 0;1 take 2 618144122;0 put 0;1 take 2 1041812380;0 put 0;1 take 2 1400583069;0 put 0;\
    1 take 2 3917562462;0 put 0;1 take 2 94292388;0 put 0;1 take 2 899542941;0 put 0;1 take 2 3327088607;0 put 0;\
    1 take 2 2877529636;0 put 0;1 take 2 578745658;0 proc offer 4 1;1 pass 2;0 put 1;1 take 0 3477750088;0 put 1;\
    1 take 0 951197285;0 put 1;1 take 0 1320828456;0 put 1;1 take 0 859051013;0 put 1;1 take 0 3423055452;0 put 1;\
    1 take 0 3371129188;0 put 1;1 take 0 4265541319;0 put 1;1 take 0 2653536858;0 put 1;1 take 0 3639537914;0 put 1;\
    1 take 0 798707510;0 put 1;1 take 0 1150403057;0 put 1;1 take 0 3030036498;0 put 1;1 take 0 201668596;0 put 1;\
    1 take 0 1482090182;0 put 1;1 take 0 3650950275;0 put 1;1 take 0 3572984812;0 proc offer 6 2;1 pass 0;0 put 0;\
    1 take 2 2725301909;0 put 0;1 take 2 499684476;0 put 0;1 take 2 3925198203;0 put 0;1 take 2 2123356206;0 put 0;\
    1 take 2 1790818399;1 pass 0;1 pass 0;1 pass 0;1 pass 0;1 pass 0;1 pass 0;1 pass 0;1 pass 0;1 pass 0;1 pass 0;\
    1 pass 0;1 pass 0;1 pass 0;1 pass 0;1 pass 0;1 pass 2;1 pass 2;1 pass 2;1 pass 2;1 pass 2;1 pass 2;1 pass 2;\
    1 pass 2;1 pass 2;1 pass 2;1 pass 2;1 pass 2;1 pass 2;1 pass 2;1 pass 2;1 fct 0;0 take 1 473443212;1 fct 0;\
    0 take 1 3522865942;1 fct 2;0 take 0 1734871597;1 fct 2;0 take 0 2449558126;1 proc want 4 2;0 put 0;\
    1 take 2 2595199172;0 put 0;1 take 2 1584628233;0 put 0;1 take 2 3972823181;0 put 0;1 take 2 36986455;0 put 0;\
    1 take 2 4059699555;0 put 0;1 take 2 3300101699;0 put 1;1 take 0 2935175603;0 put 1;1 take 0 2325467025;0 put 1;\
    1 take 0 3177303464;0 put 1;1 take 0 4227458586;0 put 1;1 take 0 4062494353;0 put 1;1 take 0 2686630879;0 put 1;\
    1 take 0 4287983276;0 put 1;1 take 0 1410012817;0 put 1;1 take 0 1849602588;0 put 1;1 take 0 4157139267;0 put 1;\
    1 take 0 1705272520;0 put 1;1 take 0 3321367863;0 put 1;1 take 0 164563685;0 put 1;1 take 0 518665749;0 put 1;\
    1 take 0 1379955804;0 put 1;1 take 0 2285274796;1 pass 0;1 pass 0;1 pass 0;1 pass 0;1 pass 0;1 pass 0;1 pass 0;\
    1 pass 0;1 pass 0;1 pass 0;1 pass 0;1 pass 0;1 pass 0;1 pass 0;1 pass 0;1 pass 0;1 pass 2;1 pass 2;1 pass 2;\
    1 pass 2;1 pass 2;1 pass 2;1 put 0;0 take 1 1653269385;1 put 0;0 take 1 2811495245;1 put 0;0 take 1 1556319449;\
    1 fct 0;0 take 1 4237376059;1 fct 0;0 take 1 2177389020;1 proc want 5 0;0 pass 1;1 put 2;0 take 0 2429034724;\
    1 put 2;0 take 0 1625270019;1 put 2;0 take 0 3591613972;1 proc want 4 2;0 pass 0;0 pass 0;0 pass 0;0 pass 1;\
    0 pass 1;0 put 1;1 take 0 4058458303;0 put 1;1 take 0 215463052;0 put 1;1 take 0 1529671670;0 proc quiet 7;\
    1 pass 0;0 proc offer 8 2;1 pass 0;0 put 0;1 take 2 3077696519;0 put 0;1 take 2 595936094;0 put 0;\
    1 take 2 878088982;0 put 0;1 take 2 2094386757;0 put 0;1 take 2 647389786;0 put 0;1 take 2 328770661;0 put 0;\
    1 take 2 3468293905;0 put 0;1 take 2 2203905293;0 put 0;1 take 2 2042871035;0 put 0;1 take 2 1540214937;\
    1 pass 0;1 pass 2;1 pass 2;1 pass 2;1 pass 2;1 pass 2;1 pass 2;1 pass 2;1 pass 2;1 pass 2;1 pass 2;1 put 2;\
    0 take 0 954865305;1 put 2;0 take 0 1374702875;1 put 2;0 take 0 3303997857;1 fct 2;0 take 0 840887298;1 fct 2;\
    0 take 0 1278715703;0 pass 0;0 pass 0;0 pass 0;0 put 0;1 take 2 2904984618;0 put 1;1 take 0 2745019971;0 put 1;\
    1 take 0 3215517466;0 put 1;1 take 0 458357351;0 put 1;1 take 0 1235524139;0 put 1;1 take 0 2880814774;0 put 1;\
    1 take 0 2660821642;0 put 1;1 take 0 3106116744;0 put 1;1 take 0 1115836006;0 put 1;1 take 0 2209594001;0 put 1;\
    1 take 0 330939845;0 put 1;1 take 0 307357883;0 put 1;1 take 0 1260121358;0 put 1;1 take 0 357409702;1 pass 0;\
    1 pass 0;1 pass 0;1 pass 0;1 pass 0;1 pass 0;1 pass 0;1 pass 0;1 pass 0;1 pass 0;1 pass 0;1 pass 0;1 pass 0;\
    1 pass 2;1 put 0;0 take 1 1811749544;1 put 0;0 take 1 1906475813;1 put 0;0 take 1 1180096233;1 fct 0;\
    0 take 1 391157331;1 fct 0;0 take 1 2198590753;1 proc want 4 2;0 pass 1;0 pass 1;0 pass 1;0 put 1;\
    1 take 0 3525284709;0 put 1;1 take 0 1124617088;0 put 1;1 take 0 2886964132;0 put 1;1 take 0 3241616353;0 put 1;\
    1 take 0 3122991403;0 put 1;1 take 0 4200108246;0 put 1;1 take 0 2913038238;0 put 1;1 take 0 1945601719;0 put 1;\
    1 take 0 4132158842;0 put 1;1 take 0 1319914982;0 put 1;1 take 0 1270234503;0 put 1;1 take 0 3075438875;0 put 1;\
    1 take 0 3885317199;0 put 1;1 take 0 1419444446;0 put 1;1 take 0 996526178;0 put 1;1 take 0 3262554208;\
    0 proc offer 8 2;1 pass 0;0 put 0;1 take 2 3212759046;0 put 0;1 take 2 286027972;0 put 0;1 take 2 461840018;\
    0 put 0;1 take 2 1860313714;0 put 0;1 take 2 1360366965;0 put 0;1 take 2 249484853;0 put 0;1 take 2 3144666511;\
    0 put 0;1 take 2 2413003843;0 put 0;1 take 2 1370476023;0 put 0;1 take 2 582949211;0 put 0;1 take 2 2793046219;\
    1 pass 0;1 pass 0;1 pass 0;1 pass 0;1 pass 0;1 pass 0;1 pass 0;1 pass 0;1 pass 0;1 pass 0;1 pass 0;1 pass 0;\
    1 pass 0;1 pass 0;1 pass 0;1 pass 2;1 pass 2;1 pass 2;1 pass 2;1 pass 2;1 pass 2;1 pass 2;1 pass 2;1 pass 2;\
    1 pass 2;1 pass 2;1 put 0;0 take 1 1832248234;1 put 0;0 take 1 1253593120;1 put 0;0 take 1 566352428;1 fct 0;\
    0 take 1 1784698786;1 fct 0;0 take 1 4087942593;1 fct 2;0 take 0 2714492121;1 proc want 4 2;0 pass 1;0 pass 1;\
    0 pass 1;0 put 1;1 take 0 1721614534;0 put 1;1 take 0 3635282363;0 put 1;1 take 0 2862085045;0 put 1;\
    1 take 0 2952679851;0 put 1;1 take 0 2556567776;0 put 1;1 take 0 663914443;0 fct 1;1 take 0 2027867861;\
    0 proc offer 8 2;1 pass 0;0 put 0;1 take 2 2679875964;0 put 0;1 take 2 1985749894;0 put 0;1 take 2 4013018918;\
    0 put 0;1 take 2 1024303764;0 put 0;1 take 2 2538596174;0 put 0;1 take 2 2334175572;0 put 0;1 take 2 1002210106;\
    0 put 0;1 take 2 875119083;0 put 0;1 take 2 611029890;0 put 0;1 take 2 651599141;0 put 0;1 take 2 4198250366;\
    1 pass 0;1 pass 0;1 pass 0;1 pass 0;1 pass 0;1 pass 2;1 pass 2;1 pass 2;1 pass 2;1 pass 2;1 pass 2;1 pass 2;\
    1 pass 2;1 pass 2;1 pass 2;1 pass 2;1 put 0;0 take 1 4144718271;1 put 0;0 take 1 992676264;1 put 0;\
    0 take 1 3157194061;1 put 2;0 take 0 3456627599;1 put 2;0 take 0 3038496267;1 put 2;0 take 0 1923021699;1 fct 2;\
    0 take 0 2118803302;0 pass 0;0 pass 0;0 pass 0;0 pass 1;0 pass 1;0 pass 1;0 put 1;1 take 0 2945611788;0 put 1;\
    1 take 0 1960789739;0 put 1;1 take 0 1770494763;0 put 1;1 take 0 1314865903;0 put 1;1 take 0 3238135474;0 put 1;\
    1 take 0 3080725684;0 put 1;1 take 0 873061522;0 put 1;1 take 0 2904792961;0 put 1;1 take 0 737255602;0 fct 0;\
    1 take 2 875616053;1 pass 0;1 pass 0;1 pass 0;1 pass 0;1 pass 0;1 pass 0;1 pass 0;1 pass 0;1 pass 0;1 put 2;\
    0 take 0 3716304557;1 put 2;0 take 0 2615695685;1 put 2;0 take 0 1475901340;1 fct 0;0 take 1 3678707335;\
    0 pass 0;0 pass 0;0 pass 0;";
